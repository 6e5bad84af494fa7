// The station: a controller that is driven from raw bytes.
#![tactic(auto)]

ghost use Rattle.std.specs.Prelude.{◌≡◌, [], ◌∷◌, IfOk};
ghost use Rattle.rules.specs.Calls.{answers as answers_of, new as new_of};
ghost use Rattle.running.specs.Parts.{assembled};
ghost use Rattle.controller.specs.Holding.{says, built};
ghost use Rattle.station.specs.declared.lines.Line.TheVariants.{Accepted};
ghost use Rattle.station.specs.Header.{header_of};
ghost use Rattle.station.specs.Script.{script};
ghost use Rattle.station.specs.Station.{told, run as run_of, started, station};

use controller::controller::Controller;
use frames::levels::Levels;
use frames::rights::Rights;
use header::{Header, Kind, Oracle, read_header};
use lines::{Line, Stop};
use oracles::broad::Broad;
use oracles::walking::Walking;
use package::refusal::Refusal;
use rules::Answer;
use running::assembly::Assembly;
use script::read_script;
use std::alloc::{AllocError, Global};

mod header;
pub mod lines;
mod script;
pub mod theorems;

// No input has more bytes.
const LONGEST: usize = 32_768;

// A line that stands alone.
fn only(heap: Global, line: Line) -> Result<Vec<Line>, AllocError>
    ensures { IfOk result (λ v. v.items ≡ line ∷ []) }
{
    Vec::from_slice(heap, &[line])
}

// The lines of a package of this length, of the answers of its calls, and of the stop behind them.
fn lines_of(
    heap: Global,
    length: usize,
    answers: &[Answer],
    stop: Option<Stop>,
) -> Result<Vec<Line>, AllocError>
    ensures { IfOk result (λ v. v.items ≡ Accepted length ∷ told answers.now stop) }
{
    let mut lines = only(heap, Line::Accepted { length })?;
    for answer in answers {
        lines.push(Line::Answered(*answer))?;
    }
    if let Some(stop) = stop {
        lines.push(Line::Stopped(stop))?;
    }
    Ok(lines)
}

// The lines of a controller whose package has just been accepted with this length.
fn answer_calls<A: Assembly>(
    heap: Global,
    controller: &mut Controller<A>,
    length: usize,
    calls: &[u8],
) -> Result<Vec<Line>, AllocError>
    ensures { IfOk result (λ v. v.items ≡ Accepted length ∷ told (answers_of (built A.Kind.meaning A.Kind.widening A.Oracle.sets controller.old.held) (says controller.old.held) (script calls.now).calls (new_of (says controller.old.held))) (script calls.now).stop) }
{
    let script = read_script(heap, calls)?;
    let answers = controller.replay(heap, &script.calls)?;
    lines_of(heap, length, &answers, script.stop)
}

// The lines of a controller that loads these bytes and then answers these calls.
fn run<A: Assembly>(heap: Global, bytes: &[u8], calls: &[u8]) -> Result<Vec<Line>, AllocError>
    ensures { IfOk result (λ v. v.items ≡ run_of (λ P. assembled A.Kind.meaning A.Kind.widening (A.Oracle.sets P)) bytes.now calls.now) }
{
    let mut controller = Controller::<A>::new(heap).map_err(|_| AllocError)?;
    match controller.load(heap, bytes) {
        Ok(length) => answer_calls(heap, &mut controller, length, calls),
        Err(Refusal::Fault(fault, offset)) => only(heap, Line::Refused { fault, offset }),
        Err(Refusal::Memory) => Err(AllocError),
    }
}

// The lines of the controller that a header names.
fn start(heap: Global, header: &Header<'_>) -> Result<Vec<Line>, AllocError>
    ensures { IfOk result (λ v. v.items ≡ started (header_of header.now)) }
{
    let (bytes, calls) = (header.bytes, header.calls);
    match (header.kind, header.oracle) {
        (Kind::Rights, Oracle::Walking) => run::<(Rights, Walking)>(heap, bytes, calls),
        (Kind::Rights, Oracle::Broad) => run::<(Rights, Broad)>(heap, bytes, calls),
        (Kind::Levels, Oracle::Walking) => run::<(Levels, Walking)>(heap, bytes, calls),
        (Kind::Levels, Oracle::Broad) => run::<(Levels, Broad)>(heap, bytes, calls),
    }
}

// The lines of an input, whatever its bytes are.
pub fn answer_input(heap: Global, input: &[u8]) -> Result<Vec<Line>, AllocError>
    ensures { IfOk result (λ v. v.items ≡ station input.now) }
{
    if input.len() > LONGEST {
        return only(heap, Line::Stopped(Stop::TooLong));
    }
    match read_header(input) {
        Ok(header) => start(heap, &header),
        Err(stop) => only(heap, Line::Stopped(stop)),
    }
}
