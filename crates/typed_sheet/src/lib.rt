// The sheet of a text that is typed.
#![tactic(auto)]

ghost use Rattle.std.specs.Prelude.{◌≡◌, ◌+◌, ◌*◌, ◌≤◌, length, Ok, IfOk};
ghost use Rattle.text.specs.Written.{HasRoom, Gained};
ghost use Rattle.words.specs.Lines.{lines};
ghost use Rattle.typed_sheet.specs.Typed.{counts, tallies, tally_of, is_kind, records, sheet_bytes, typed_sheet, Says};
ghost use Rattle.typed_sheet.specs.declared.TypedError.TheVariants.{Faulty};

use text::Text;
use typed_line::{Kind, Line, Span};
use words::{Fault, Lines};

// How many lines of each kind there are among some lines without a fault.
#[derive(Clone, Copy, PartialEq, Eq, Debug)]
pub struct Tally {
    pub charts: usize,
    pub weights: usize,
    pub plays: usize,
}

// A text's first fault: its line, counted from 1, and the word at which it was found.
#[derive(Clone, Copy, PartialEq, Eq, Debug)]
pub struct LineFault {
    pub line: usize,
    pub fault: Fault,
    pub word: Span,
}

#[derive(Clone, Copy, PartialEq, Eq, Debug)]
pub enum TypedError {
    Faulty(LineFault),
    // The output has too few bytes for the sheet.
    Short,
}

impl From<LineFault> for TypedError {
    ghost from_gives = { λ told e. e ≡ Faulty told };

    fn from(told: LineFault) -> TypedError {
        TypedError::Faulty(told)
    }
}

// A line of a kind more.
fn count_line(t: Tally, kind: Kind) -> Result<Tally, Fault>
    ensures { result ≡ counts t kind }
{
    match kind {
        Kind::Chart => {
            if t.charts < 256 {
                Ok(Tally {
                    charts: t.charts + 1,
                    ..t
                })
            } else {
                Err(Fault::TooManyCharts)
            }
        }
        Kind::Weights => {
            if t.weights < 1 {
                Ok(Tally {
                    weights: t.weights + 1,
                    ..t
                })
            } else {
                Err(Fault::TooManyWeights)
            }
        }
        Kind::Play => {
            if t.plays < 1024 {
                Ok(Tally {
                    plays: t.plays + 1,
                    ..t
                })
            } else {
                Err(Fault::TooManyPlays)
            }
        }
    }
}

// A line more.
#[tactic(auto, unfolding(crate::specs::Typed::tallies))]
fn tally_line(t: Tally, nth: usize, l: Line) -> Result<Tally, LineFault>
    ensures { result ≡ tallies (Ok t) nth l }
{
    if let Some(fault) = l.fault {
        return Err(LineFault {
            line: nth,
            fault,
            word: l.word,
        });
    }
    let Some(kind) = l.kind else {
        return Ok(t);
    };
    count_line(t, kind).map_err(|fault| LineFault {
        line: nth,
        fault,
        word: l.first,
    })
}

// The judgement of all lines.
fn tally_text(text: &[u8]) -> Result<Tally, LineFault>
    ensures value { result ≡ tally_of text.now }
    ensures bound { IfOk result (λ t. (t.charts ≤ 256) × (t.weights ≤ 1) × (t.plays ≤ 1024)) }
{
    let mut t = Tally {
        charts: 0,
        weights: 0,
        plays: 0,
    };
    for (i, (at, line)) in Lines::new(text).enumerate() {
        t = tally_line(t, i + 1, typed_line::read_line(line, at))?;
    }
    Ok(t)
}

fn is_kind(l: Line, kind: Kind) -> bool
    ensures { result ≡ is_kind kind l.kind }
{
    l.kind == Some(kind)
}

// The records of one kind, one after the other.
fn write_kind(text: &[u8], kind: Kind, out: &mut Text<'_>)
    requires { HasRoom out.old (length (records kind (lines text.now))) }
    ensures { Gained out.old out.new (records kind (lines text.now)) }
{
    for (at, line) in Lines::new(text) {
        let l = typed_line::read_line(line, at);
        if is_kind(l, kind) {
            typed_records::put_record(out, l);
        }
    }
}

// The three sections, each after its count.
fn write_sheet(text: &[u8], out: &mut Text<'_>, t: Tally)
    requires { HasRoom out.old (length (sheet_bytes text.now t.charts t.weights t.plays)) }
    ensures { Gained out.old out.new (sheet_bytes text.now t.charts t.weights t.plays) }
{
    typed_records::put_number(out, t.charts as u64);
    write_kind(text, Kind::Chart, out);
    typed_records::put_number(out, t.weights as u64);
    write_kind(text, Kind::Weights, out);
    typed_records::put_number(out, t.plays as u64);
    write_kind(text, Kind::Play, out);
}

// The sheet of a text, at the front of the output; it answers the sheet's length.
pub fn sheet_of(text: &[u8], out: &mut [u8]) -> Result<usize, TypedError>
    ensures { Says (typed_sheet text.now out.old) result out.new }
{
    let t = tally_text(text)?;
    let size = 12 + 8 * t.charts + 20 * t.weights + 48 * t.plays;
    if out.len() < size {
        return Err(TypedError::Short);
    }
    let mut sheet = Text::new(out);
    write_sheet(text, &mut sheet, t);
    Ok(sheet.len())
}
