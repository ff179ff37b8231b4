// Makes the calls that standard input lists, on both sides of every limit of document 01, and writes one line a call.
// The second program writes both the list and the lines expected here.
#![tactic(auto)]

ghost use Rattle.std.specs.Prelude.{◌≡◌, ◌≤◌, length, take};

use outcome::Outcome;
use std::{array, io};
use streams::{put, put_shown, read_full};

// Room for twice the calls that there are.
const TEXT_BYTES: usize = 16384;
// The table of one radio more than a map may have, and a byte more.
const TABLE_BYTES: usize = 4226;
// A few bytes more than any call needs, so that longer buffers can be lent too.
const LOG_BYTES: usize = 39040;

const PATH_BYTES: usize = 96;

const CUT_BYTES: usize = 16;
// What every byte holds before a call: a byte that the call forgets shows.
const OLD_BYTE: u8 = 0xAA;
// The largest prime below 2^32, so that a sum is a u32.
const SUM_MODULUS: u64 = 4294967291;

const SUM_FACTOR: u64 = 257;

// The columns of a line: the call's name, what the call is given, how its table is made, and whether the call finds
// what the one before it left.
#[derive(Clone, Copy)]
enum Column {
    Name,
    Radios,
    Cells,
    Source,
    Destination,
    Wanted,
    Log,
    Paths,
    Cut,
    Circle,
    Reach,
    Spokes,
    Hands,
    Spoiled,
    Held,
    Kept,
}

// A line that has fewer columns has nothing there.
fn field_in(line: &[u8], column: Column) -> &[u8]
    ensures { length result.now ≤ length line.now }
{
    line.split(|byte| *byte == b'\t')
        .nth(column as usize)
        .unwrap_or_default()
}

// The number with one digit more, or the largest one where that does not fit. What is no digit is passed over.
fn with_digit(number: usize, byte: u8) -> usize {
    match byte {
        b'0'..=b'9' => number
            .saturating_mul(10)
            .saturating_add((byte - b'0') as usize),
        _ => number,
    }
}

// A number that is not there is 0: so the list of calls leaves out columns.
fn number_in(line: &[u8], column: Column) -> usize {
    let field = field_in(line, column);
    field
        .iter()
        .fold(0, |number, byte| with_digit(number, *byte))
}

// So many bytes of these as the line says, or all where there are fewer.
fn front_in<'a>(line: &[u8], column: Column, bytes: &'a [u8]) -> &'a [u8]
    ensures { result.now ≡ take (length result.now) bytes.now }
{
    let length = number_in(line, column).min(bytes.len());
    &bytes[..length]
}

// The radios below `circle` stand in a circle, each linked to those at most `reach` places away; radio 0 is linked
// to the `spokes` radios after those too. The radios below `hands` are handhelds. The cell at place `spoiled` holds `held`
// instead, where the table has that place.
#[derive(Clone, Copy)]
struct Map {
    radios: usize,
    circle: usize,
    reach: usize,
    spokes: usize,
    hands: usize,
    spoiled: usize,
    held: u8,
}

impl Map {
    // A number that no byte can hold is the largest byte.
    fn of_line(line: &[u8]) -> Map {
        Map {
            radios: number_in(line, Column::Radios),
            circle: number_in(line, Column::Circle),
            reach: number_in(line, Column::Reach),
            spokes: number_in(line, Column::Spokes),
            hands: number_in(line, Column::Hands),
            spoiled: number_in(line, Column::Spoiled),
            held: u8::try_from(number_in(line, Column::Held)).unwrap_or(u8::MAX),
        }
    }

    // Is radio 0 linked to this one that is too far for the circle's own links?
    fn is_spoke(self, end: usize) -> bool {
        end > self.reach && end - self.reach <= self.spokes
    }

    // The lower radio comes first. Around the circle, whichever way is shorter.
    fn is_linked(self, low: usize, high: usize) -> bool {
        if low == 0 && self.is_spoke(high) {
            return true;
        }
        if low >= high || high >= self.circle {
            return false;
        }
        let apart = high - low;
        apart <= self.reach || self.circle - apart <= self.reach
    }

    fn cell(self, place: usize) -> u8 {
        if place == self.spoiled {
            return self.held;
        }
        if self.radios == 0 {
            return 0;
        }
        let row = place / self.radios;
        let column = place % self.radios;
        let is_hand = row == column && row < self.hands;
        u8::from(is_hand || self.is_linked(row, column) || self.is_linked(column, row))
    }

    // The whole array is filled, so that a table too long or too short is the right one but for its length.
    fn table(self) -> [u8; TABLE_BYTES] {
        array::from_fn(|place| self.cell(place))
    }
}

// The name and what the call is given.
fn write_asked(out: &impl Print, line: &[u8]) {
    put(out, field_in(line, Column::Name));
    let asked = [
        (": n=", Column::Radios),
        (" cells=", Column::Cells),
        (" S=", Column::Source),
        (" T=", Column::Destination),
        (" k=", Column::Wanted),
        (" log=", Column::Log),
        (" paths=", Column::Paths),
        (" cut=", Column::Cut),
    ];
    for (name, column) in asked {
        put_shown(out, name);
        put_shown(out, number_in(line, column));
    }
}

fn write_numbers(out: &impl Print, outcome: Outcome) {
    let Outcome {
        refusal,
        place,
        paths,
        rounds,
        messages,
    } = outcome;
    put_shown(
        out,
        format_args!(
            " => refusal={refusal} place={place} p={paths} rounds={rounds} messages={messages}"
        ),
    );
}

// The bytes up to the last that is not 0.
fn used(bytes: &[u8]) -> &[u8]
    ensures { result.now ≡ take (length result.now) bytes.now }
{
    let count = bytes
        .iter()
        .rposition(|byte| *byte != 0)
        .map_or(0, |last| last + 1);
    &bytes[..count]
}

// Each byte counts by its place, and so do the zeros at the end.
fn sum(bytes: &[u8]) -> u32 {
    bytes.iter().fold(
        1,
        |total, byte| ((u64::from(total) * SUM_FACTOR + u64::from(*byte)) % SUM_MODULUS) as u32,
    )
}

// A log can have thousands of messages: its length, how far its last byte that is not 0 stands, and a sum over every byte.
fn write_log(out: &impl Print, log: &[u8]) {
    put_shown(
        out,
        format_args!(" log={}:{}:{}", log.len(), used(log).len(), sum(log)),
    );
}

// A list is its length and its bytes without the zeros at its end.
fn write_list(out: &impl Print, name: &str, list: &[u8]) {
    let length = list.len();
    put_shown(out, format_args!(" {name}={length}:"));
    let used = used(list);
    if used.is_empty() {
        put_shown(out, "-");
    }
    for byte in used {
        put_shown(out, format_args!("{byte:02x}"));
    }
}

fn write_outcome(out: &impl Print, outcome: Outcome, log: &[u8], paths: &[u8], cut: &[u8]) {
    write_numbers(out, outcome);
    write_log(out, log);
    write_list(out, "paths", paths);
    write_list(out, "cut", cut);
    put_shown(out, "\n");
}

// What the calls are lent the front parts of.
#[derive(Drop)]
struct Buffers {
    log: [u8; LOG_BYTES],
    paths: [u8; PATH_BYTES],
    cut: [u8; CUT_BYTES],
}

// So many bytes as the line lends, or all where there are fewer. Each is old again, unless the call is to find what the one
// before it left.
fn lend<'a>(line: &[u8], column: Column, buffer: &'a mut [u8]) -> &'a mut [u8]
    ensures { length result.now ≤ length buffer.old }
{
    if number_in(line, Column::Kept) == 0 {
        buffer.fill(OLD_BYTE);
    }
    let length = number_in(line, column).min(buffer.len());
    &mut buffer[..length]
}

// One call and its line.
fn survey_line(out: &impl Print, line: &[u8], buffers: &mut Buffers) {
    write_asked(out, line);
    let table = Map::of_line(line).table();
    let log = lend(line, Column::Log, &mut buffers.log);
    let paths = lend(line, Column::Paths, &mut buffers.paths);
    let cut = lend(line, Column::Cut, &mut buffers.cut);
    let outcome = survey::fog_survey(
        number_in(line, Column::Radios),
        front_in(line, Column::Cells, &table),
        number_in(line, Column::Source),
        number_in(line, Column::Destination),
        number_in(line, Column::Wanted),
        log,
        paths,
        cut,
    );
    write_outcome(out, outcome, log, paths, cut);
}

// The last line may end without a line feed.
fn survey_lines(out: &impl Print, text: &[u8], buffers: &mut Buffers) {
    if text.is_empty() {
        return;
    }
    let lines = text.strip_suffix(b"\n").unwrap_or(text);
    for line in lines.split(|byte| *byte == b'\n') {
        survey_line(out, line, buffers);
    }
}

fn main(rt: HostRuntime) -> io::Result<()> {
    let mut text = [0u8; TEXT_BYTES];
    let mut buffers = Buffers {
        log: [OLD_BYTE; LOG_BYTES],
        paths: [OLD_BYTE; PATH_BYTES],
        cut: [OLD_BYTE; CUT_BYTES],
    };
    let length = read_full(&mut rt.stdin(), &mut text)?;
    survey_lines(&rt, &text[..length], &mut buffers);
    Ok(())
}
