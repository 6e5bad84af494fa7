// The walking oracle: the places that a block, the blocks inside it and the bodies that it calls may write.
ghost use Rattle.std.specs.Prelude.{◌≡◌};
ghost use Rattle.layout.specs.Layout.{encode_block};
ghost use Rattle.layout.specs.Program.{body as body_of, table as table_of};
ghost use Rattle.commands.specs.Reads.{flat_of, plain_of};
ghost use Rattle.oracle_laws.specs.Sets.{cell_of, target as target_of};
ghost use Rattle.oracle_laws.specs.Smallest.{smallest};
ghost use Rattle.oracles.specs.Answers.{walking_answers, asked, TellsOne, TellsTwo, TellsAll};
ghost use Rattle.oracle_laws.proofs.Smallest.{smallest_lawful_lem};

use super::WriteOracle;
use commands::{Command, Plain, decode};
use layout::Table;
use package::held::Package;
use package::parts::part;
use std::alloc::{AllocError, Global};

// Keeps a copy of the package and walks its blocks when it is asked.
#[derive(Drop)]
pub struct Walking {
    held: Package,
}

// A question about commands of a package, which may call the procedures below the limit: whether they may write the
// place.
#[derive(Clone, Copy)]
struct Question<'a> {
    held: &'a Package,
    limit: usize,
    place: u8,
}

// Whether the place is a cell of the table.
fn has_cell(table: &Table, place: u8) -> bool
    ensures { result ≡ cell_of table.now place }
{
    let first = u16::from(table.first);
    (first..first + u16::from(table.length)).contains(&u16::from(place))
}

impl<'a> Question<'a> {
    // The body of a procedure; none where there is no such procedure.
    fn body(&self, procedure: usize) -> &'a [u8]
        ensures { result.now ≡ encode_block (body_of (asked self.now) procedure) }
    {
        let held = self.held;
        held.contents()
            .procedures
            .get(procedure)
            .map_or(&[], |found| part(held.bytes(), found.start, found.length))
    }

    // Whether the place is a cell of the table of this number.
    fn is_cell_of(&self, table: u8) -> bool
        ensures { result ≡ cell_of (table_of (asked self.now) table) self.now.place }
    {
        let place = self.place;
        self.held
            .contents()
            .tables
            .get(usize::from(table))
            .is_some_and(|found| has_cell(found, place))
    }

    // Whether the place is a target of a plain command: a PUT may write any cell of its table.
    fn is_target_of(&self, plain: Plain) -> bool
        ensures { result ≡ target_of (asked self.now) (plain_of plain) self.now.place }
    {
        match plain {
            Plain::Set { target, .. }
            | Plain::Copy { target, .. }
            | Plain::Combine { target, .. }
            | Plain::Pick { target, .. } => self.place == target,
            Plain::Put { table, .. } => self.is_cell_of(table),
            Plain::Drive { .. } => false,
        }
    }

    // Whether one of the commands of these bytes may write the place. The loop moves along the bytes, up to the first
    // that may: an iterator of commands would have to say in its contract, once more, how a block is read.
    #[cycle(may_write)]
    fn any_writes(&self, bytes: &[u8]) -> bool
        ensures { TellsAll self.now bytes.now result }
    {
        let mut rest = bytes;
        while let Ok((command, after)) = decode(rest) {
            if self.writes(command) {
                return true;
            }
            rest = after;
        }
        false
    }

    // Whether one of the two blocks of a choice may write the place.
    #[cycle(may_write)]
    fn either_writes(&self, first: &[u8], second: &[u8]) -> bool
        ensures { TellsTwo self.now first.now second.now result }
    {
        self.any_writes(first) || self.any_writes(second)
    }

    // Whether a command may write the place, with its blocks and the body that it calls. An arm for each command: of two
    // in one arm the proof has only that it is one of them.
    #[cycle(may_write)]
    fn writes(&self, command: Command<'_>) -> bool
        ensures { TellsOne self.now (flat_of command.entry) result }
    {
        match command {
            Command::Plain(plain) => self.is_target_of(plain),
            Command::When { first, second, .. } => self.either_writes(first, second),
            Command::Loop { body, .. } => self.any_writes(body),
            Command::Grant { body, .. } => self.any_writes(body),
            Command::Call { procedure } => {
                let limit = usize::from(procedure);
                limit < self.limit && Question { limit, ..*self }.any_writes(self.body(limit))
            }
            Command::Try { first, second, .. } => self.either_writes(first, second),
        }
    }
}

impl WriteOracle for Walking {
    ghost sets = { smallest };

    ghost answers = { walking_answers };

    ghost lawful = { smallest_lawful_lem };

    fn prepare(_heap: Global, held: &Package) -> Result<Walking, AllocError> {
        let held = held.clone()?;
        Ok(Walking { held })
    }

    fn names(&self, block: usize, place: u8) -> bool {
        let held = &self.held;
        let limit = held.contents().procedures.len();
        held.contents().blocks.get(block).is_some_and(|span| {
            let commands = part(held.bytes(), span.start, span.length);
            Question { held, limit, place }.any_writes(commands)
        })
    }
}
