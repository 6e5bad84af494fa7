// One declaration more: its checks, in their order, and what it adds.
ghost use Rattle.std.specs.Prelude.{◌≡◌, ℕ, ◌+◌, ◌-◌, ◌^◌, ◌<◌, ◌≤◌, [], ◌∷◌, ◌++◌, length, vec_len, MatchResult};
ghost use Rattle.layout.specs.Declarations.{item_bytes, proc, simple, table_item, entry_item, steps_of};
ghost use Rattle.layout.specs.Packages.{room, known, filled};
ghost use Rattle.package.specs.Holds.{Refused};
ghost use Rattle.package.specs.Items.{item_of};
ghost use Rattle.package.specs.Declares.{contents_of, Passes, DecidesItem, DeclaresOne};

use super::bodies::{Scope, body as check_body};
use super::contents::Contents;
use super::declarations::Declaration;
use super::refusal::{Fault, Refusal};
use layout::{Procedure, Table};

// Whether there is room for one more of its sort; a body is a block too.
fn has_room<'a>(declaration: Declaration<'a>, contents: &Contents) -> bool
    ensures { result ≡ room (contents_of contents.now) (item_of declaration.entry) }
{
    match declaration {
        Declaration::Party { .. } => contents.parties.len() < 16,
        Declaration::Input(_) | Declaration::Cell(_) => contents.places() < 128,
        Declaration::Table(_) => contents.tables.len() < 16,
        Declaration::Device { .. } => contents.needs.len() < 32,
        Declaration::Procedure { .. } => contents.procedures.len() < 32
            && contents.blocks.len() < 256,
        Declaration::Entry { .. } => contents.entries.len() < 32,
    }
}

// Whether every place of a table is a cell.
fn holds_cells(table: Table, contents: &Contents) -> bool
    ensures { result ≡ known (contents_of contents.now) (simple (table_item table)) }
{
    let first = usize::from(table.first);
    let places = contents.places();
    (contents.inputs.len()..places).contains(&first) && first + usize::from(table.length) <= places
}

// Whether every number that a declaration uses is declared.
fn is_known<'a>(declaration: Declaration<'a>, contents: &Contents) -> bool
    ensures { result ≡ known (contents_of contents.now) (item_of declaration.entry) }
{
    match declaration {
        Declaration::Party { .. } | Declaration::Cell(_) | Declaration::Device { .. } => true,
        Declaration::Input(input) => usize::from(input.party) < contents.parties.len(),
        Declaration::Table(table) => holds_cells(table, contents),
        Declaration::Procedure { party, .. } => usize::from(party) < contents.parties.len(),
        Declaration::Entry { procedure } => usize::from(procedure) < contents.procedures.len(),
    }
}

// Whether a table has at least one cell.
fn is_filled<'a>(declaration: Declaration<'a>) -> bool
    ensures { result ≡ filled (item_of declaration.entry) }
{
    match declaration {
        Declaration::Table(table) => table.length != 0,
        _ => true,
    }
}

// The first fault of a declaration at the offset `at`, its body and its steps apart.
fn first_fault<'a>(
    declaration: Declaration<'a>,
    contents: &Contents,
    at: usize,
) -> Result<(), Refusal>
    ensures { DecidesItem (contents_of contents.now) (item_of declaration.entry) at result }
{
    match declaration {
        _ if !has_room(declaration, contents) => Err(Refusal::Fault(Fault::OverLimit, at)),
        _ if !is_known(declaration, contents) => Err(Refusal::Fault(Fault::NotDeclared, at)),
        _ if !is_filled(declaration) => Err(Refusal::Fault(Fault::PastEnd, at)),
        _ => Ok(()),
    }
}

// One element more, or want of memory.
fn add<T: Drop>(items: &mut Vec<T>, item: T) -> Result<(), Refusal>
    ensures { MatchResult result (λ _. items.new.items ≡ items.old.items ++ (item ∷ [])) (λ e. e ≡ Refusal.Memory) }
{
    items.push(item)?;
    Ok(())
}

// A procedure that has passed its own checks: its body, then its steps.
fn add_procedure(contents: &mut Contents, party: u8, body: &[u8], at: usize) -> Result<(), Refusal>
    requires fits { at + 4 + length body.now < 2 ^ 64 }
    requires passes { Passes (contents_of contents.old) (proc party body.now) }
    ensures { DeclaresOne (contents_of contents.old) (contents_of contents.new) (proc party body.now) at result }
{
    let inputs = contents.inputs.len();
    let places = contents.places();
    let tables = contents.tables.len();
    let devices = contents.needs.len();
    let scope = Scope {
        inputs,
        places,
        tables,
        devices,
        procedures: &contents.procedures,
    };
    let block = contents.blocks.len();
    let cost = check_body(body, scope, at + 4, &mut contents.blocks)?;
    if cost.steps > 1_000_000 {
        return Err(Refusal::Fault(Fault::TooManySteps, at));
    }
    let procedure = Procedure {
        party,
        start: at + 4,
        length: body.len(),
        block,
        height: cost.highest + 1,
        steps: cost.steps,
    };
    add(&mut contents.procedures, procedure)
}

// An entry that has passed its own checks: the steps of the cycle with it.
fn add_entry(contents: &mut Contents, procedure: u8, at: usize) -> Result<(), Refusal>
    requires { Passes (contents_of contents.old) (simple (entry_item procedure)) }
    ensures { DeclaresOne (contents_of contents.old) (contents_of contents.new) (simple (entry_item procedure)) at result }
{
    let body = contents.procedures[usize::from(procedure)].steps;
    let steps = contents.steps.saturating_add(1).saturating_add(body);
    if steps > 1_000_000 {
        return Err(Refusal::Fault(Fault::TooManySteps, at));
    }
    contents.steps = steps;
    add(&mut contents.entries, procedure)
}

// One declaration more, at the offset `at`.
pub(crate) fn declare<'a>(
    contents: &mut Contents,
    declaration: Declaration<'a>,
    at: usize,
) -> Result<(), Refusal>
    requires { at + length (item_bytes (item_of declaration)) < 2 ^ 64 }
    ensures { DeclaresOne (contents_of contents.old) (contents_of contents.new) (item_of declaration.entry) at result }
{
    first_fault(declaration, contents, at)?;
    match declaration {
        Declaration::Party { frame } => add(&mut contents.parties, frame),
        Declaration::Input(input) => add(&mut contents.inputs, input),
        Declaration::Cell(cell) => add(&mut contents.cells, cell),
        Declaration::Table(table) => add(&mut contents.tables, table),
        Declaration::Device { need } => add(&mut contents.needs, need),
        Declaration::Procedure { party, body } => add_procedure(contents, party, body, at),
        Declaration::Entry { procedure } => add_entry(contents, procedure, at),
    }
}
