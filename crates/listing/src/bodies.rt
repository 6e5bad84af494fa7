// The commands of a body, block by block.
ghost use Rattle.std.specs.Prelude.{◌≡◌, IfOk, OnOk};
ghost use Rattle.commands.specs.Reads.{flat_of};
ghost use Rattle.listing.specs.Bodies.{tell, TellsBlock, TellsAll, TellsOne, TellsTwo};
ghost use Rattle.listing.specs.Lines.{TellsProcedures};

use super::lines::{Action, Line, Role};
use commands::{Command, decode};
use layout::Procedure;
use package::parts::part;
use std::alloc::AllocError;

// The listing of bodies as far as it has come: its lines; how many places are inputs, by which a place has its name; and
// how many blocks are listed, which is the number of the next.
#[derive(Drop)]
pub(crate) struct BodyLines {
    lines: Vec<Line>,
    inputs: usize,
    blocks: usize,
}

// What a command does, its blocks apart.
impl<'a> From<Command<'a>> for Action {
    ghost from_gives = { λ command action. action ≡ tell (flat_of command) };

    fn from(command: Command<'a>) -> Action {
        match command {
            Command::Plain(plain) => Action::Plain(plain),
            Command::When { place, .. } => Action::When { place },
            Command::Loop { place, times, .. } => Action::Loop { place, times },
            Command::Grant { frame, .. } => Action::Grant { frame },
            Command::Call { procedure } => Action::Call { procedure },
            Command::Try { frame, place, .. } => Action::Try { frame, place },
        }
    }
}

impl BodyLines {
    // Lists the block of these bytes, at the offset `at`.
    #[cycle(lines)]
    fn list_block(
        &mut self,
        bytes: &[u8],
        at: usize,
        depth: usize,
        role: Role,
    ) -> Result<(), AllocError>
        ensures { OnOk result (TellsBlock depth role bytes.now at self.old self.new) }
    {
        self.lines.push(Line::Block {
            number: self.blocks,
            depth,
            role,
        })?;
        self.blocks = self.blocks.saturating_add(1);
        self.list_commands(bytes, at, depth)
    }

    // Lists the commands of these bytes.
    #[cycle(lines)]
    fn list_commands(&mut self, bytes: &[u8], at: usize, depth: usize) -> Result<(), AllocError>
        ensures { OnOk result (TellsAll depth bytes.now at self.old self.new) }
    {
        let mut rest = bytes;
        let mut offset = at;
        // The loop moves along the bytes. An iterator of commands would have to say in its contract, once more, how a
        // block is read.
        while let Ok((command, after)) = decode(rest) {
            self.list_command(command, offset, depth)?;
            offset = offset.saturating_add(rest.len().saturating_sub(after.len()));
            rest = after;
        }
        Ok(())
    }

    // Lists the two blocks of a choice, the first of which starts at `start`.
    #[cycle(lines)]
    fn list_choice(
        &mut self,
        first: &[u8],
        second: &[u8],
        start: usize,
        depth: usize,
    ) -> Result<(), AllocError>
        ensures { OnOk result (TellsTwo depth first.now second.now start self.old self.new) }
    {
        self.list_block(first, start, depth, Role::First)?;
        let between = start.saturating_add(first.len());
        self.list_block(second, between, depth, Role::Second)
    }

    // Lists a command, then its blocks.
    #[cycle(lines)]
    fn list_command<'a>(
        &mut self,
        command: Command<'a>,
        at: usize,
        depth: usize,
    ) -> Result<(), AllocError>
        ensures { OnOk result (TellsOne depth (flat_of command.entry) at self.old self.new) }
    {
        self.lines.push(Line::Command {
            offset: at,
            depth,
            inputs: self.inputs,
            action: Action::from(command),
        })?;
        let inner = depth.saturating_add(1);
        match command {
            Command::Plain(_) => Ok(()),
            Command::When { first, second, .. } => {
                self.list_choice(first, second, at.saturating_add(6), inner)
            }
            Command::Loop { body, .. } => {
                self.list_block(body, at.saturating_add(5), inner, Role::Turn)
            }
            Command::Grant { body, .. } => {
                self.list_block(body, at.saturating_add(11), inner, Role::Granted)
            }
            Command::Call { .. } => Ok(()),
            Command::Try { first, second, .. } => {
                self.list_choice(first, second, at.saturating_add(14), inner)
            }
        }
    }
}

// Lists the procedures of a package with their bodies.
pub(crate) fn list_procedures(
    lines: Vec<Line>,
    bytes: &[u8],
    procedures: &[Procedure],
    inputs: usize,
) -> Result<Vec<Line>, AllocError>
    ensures { IfOk result (λ after. TellsProcedures inputs bytes.now procedures.now lines.items after.items) }
{
    let mut bodies = BodyLines {
        lines,
        inputs,
        blocks: 0,
    };
    for (number, procedure) in procedures.iter().enumerate() {
        bodies.lines.push(Line::Procedure {
            number,
            procedure: *procedure,
        })?;
        let body = part(bytes, procedure.start, procedure.length);
        bodies.list_block(body, procedure.start, 0, Role::Body)?;
    }
    Ok(bodies.lines)
}
