// From the text of a capture to its numbers and lists, or to its refusal.
#![tactic(auto)]

ghost use Rattle.std.specs.Prelude.{◌≡◌, ◌≤◌};
ghost use Rattle.captures.specs.Text.{most_number};
ghost use Rattle.text_survey.specs.Survey.{text_number, text_place, refused_for, survey_of};
ghost use Rattle.text_survey.specs.Delivered.{Lent, ReadAs, Delivered};

use captures::FirstLine;
use outcome::Outcome;
use refusals::Refusal;
use texts::Table;

// A text of more bytes is refused.
pub const MOST_BYTES: usize = 8192;

// Enough for every call that the survey accepts.
const LOG_BYTES: usize = 39032;

pub const PATH_BYTES: usize = 86;

pub const CUT_BYTES: usize = 8;

// What is wrong with a text, before its map is surveyed. Where a line is at fault its number is told.
#[derive(Clone, Copy, Debug, PartialEq, Eq)]
pub enum TextFault {
    TooLong,
    WrongShape(usize),
    WrongRadios,
    BadLine(usize),
}

impl TextFault {
    // Document 01's number of it.
    fn number(self) -> usize
        ensures { result ≡ text_number self }
    {
        match self {
            TextFault::TooLong => 10,
            TextFault::WrongShape(_) => 9,
            TextFault::WrongRadios => Refusal::Radios.number(),
            TextFault::BadLine(_) => 11,
        }
    }

    fn place(self) -> usize
        ensures { result ≡ text_place self }
    {
        match self {
            TextFault::WrongShape(line) | TextFault::BadLine(line) => line,
            TextFault::TooLong | TextFault::WrongRadios => 0,
        }
    }
}

// The numbers of a capture: its own number and the paths wanted, as its first line says them, and what the survey says of its
// map. A text that is refused before the survey has a refusal and a place, and 0 for all else: it is no Result, since the survey's
// own reply, C's, has the refusals of its map in it.
#[derive(Clone, Copy)]
pub struct Surveyed {
    pub capture: usize,
    pub wanted: usize,
    pub outcome: Outcome,
}

// What the first line of a text says, and the table of its other lines; or what is wrong with the text: 10, then 9 over all
// lines, then 1, then 11.
fn read(text: &[u8]) -> Result<(FirstLine, Table), TextFault>
    ensures { ReadAs text.now result }
{
    if text.len() > MOST_BYTES {
        return Err(TextFault::TooLong);
    }
    if let Some(line) = texts::first_wrong(text) {
        return Err(TextFault::WrongShape(line));
    }
    // The first line is there and has the right shape by now; the definition has a refusal for it all the same.
    let no_first_line = TextFault::WrongShape(1);
    let (line, rest) = captures::split_at_first(text, captures::LINE_FEED).ok_or(no_first_line)?;
    let first = captures::head_of(line).ok_or(no_first_line)?;
    if refusals::too_few(first.n) || refusals::too_many(first.n) {
        return Err(TextFault::WrongRadios);
    }
    let mut table = Table::empty(first.n);
    if let Some(line) = table.fill(rest) {
        return Err(TextFault::BadLine(line));
    }
    Ok((first, table))
}

// A refused text leaves zeros in both lists, whatever they held.
fn refused(fault: TextFault, paths: &mut [u8], cut: &mut [u8]) -> Surveyed
    requires { Lent paths.old cut.old × (text_place fault ≤ most_number) }
    ensures { Delivered (refused_for fault) result paths.new cut.new }
{
    paths.fill(0);
    cut.fill(0);
    Surveyed {
        capture: 0,
        wanted: 0,
        outcome: Outcome::refused(fault.number(), fault.place()),
    }
}

// The numbers of the capture that stands in a text, or its refusal: 10, then 9 over all lines, then 1, then 11, then what the
// survey says. The path list and the cut list are left in the two buffers, with zeros after them.
pub fn survey_text(text: &[u8], paths: &mut [u8], cut: &mut [u8]) -> Surveyed
    requires { Lent paths.old cut.old }
    ensures { Delivered (survey_of text.now) result paths.new cut.new }
{
    match read(text) {
        Ok((first, table)) => {
            let mut log = [0; LOG_BYTES];
            let outcome = survey::fog_survey(
                first.n,
                table.cells(),
                first.s,
                first.t,
                first.k,
                &mut log,
                paths,
                cut,
            );
            Surveyed {
                capture: first.capture,
                wanted: first.k,
                outcome,
            }
        }
        Err(fault) => refused(fault, paths, cut),
    }
}
