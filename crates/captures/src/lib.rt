// One capture read from a text: its lines, fields and numbers.
#![tactic(auto)]

ghost use Rattle.std.specs.Prelude.{◌≡◌, ◌≤◌, [], ◌∷◌, eqb, length, MatchOption};
ghost use Rattle.std.specs.List.{position_or_len};
ghost use Rattle.captures.specs.Text.{pieces, number_of};
ghost use Rattle.captures.specs.Capture.{head_of, line_of};
ghost use Rattle.captures.specs.Reading.{Parted, Filled, numbers_of};

// Fields are parted by this byte.
pub const TAB: u8 = b'\t';

// Every line is ended by this byte.
pub const LINE_FEED: u8 = b'\n';

// A number of the sheet is no larger than this.
const MOST_NUMBER: usize = 65535;

// What the first line of a capture says: its number, the radios, the two ends, the paths wanted.
#[derive(Clone, Copy, Debug, PartialEq, Eq)]
pub struct FirstLine {
    pub capture: usize,
    pub n: usize,
    pub s: usize,
    pub t: usize,
    pub k: usize,
}

// What any other line says: a link between two radios, or a radio that is a handheld.
#[derive(Clone, Copy, Debug, PartialEq, Eq)]
pub enum Line {
    Link(usize, usize),
    Hand(usize),
}

// The first place that holds the separator, or the length. A loop of its own: by the iterator's `position` the sheet of a small
// capture takes a quarter more instructions.
fn end_of(bytes: &[u8], separator: u8) -> usize
    ensures first { result ≡ position_or_len (λ x. eqb x separator) bytes.now }
    ensures within { result ≤ length bytes.now }
{
    let mut place = 0;
    while place < bytes.len() {
        if bytes[place] == separator {
            return place;
        }
        place += 1;
    }
    place
}

// What stands before the first separator and what stands after it; none where there is no separator.
pub fn split_at_first(bytes: &[u8], separator: u8) -> Option<(&[u8], &[u8])>
    ensures { MatchOption result (pieces separator bytes.now ≡ bytes.now ∷ []) (λ parts. Parted separator bytes.now parts.0.now parts.1.now) }
{
    let place = end_of(bytes, separator);
    if place == bytes.len() {
        return None;
    }
    Some((&bytes[..place], &bytes[place + 1..]))
}

// What the field says as a number. A value that is too large only grows with the digits after it, so reading ends there
// and the value never outgrows its type. The library's `parse` would take a sign and leading zeros.
fn number_of(field: &[u8]) -> Option<usize>
    ensures { result ≡ number_of field.now }
{
    if field.is_empty() {
        return None;
    }
    if field.len() > 1 && field[0] == b'0' {
        return None;
    }
    let mut value = 0;
    for digit in field {
        if !digit.is_ascii_digit() {
            return None;
        }
        value = 10 * value + (*digit - b'0') as usize;
        if value > MOST_NUMBER {
            return None;
        }
    }
    Some(value)
}

// The fields of a text, if they are as many numbers as there is room for. It stands apart from `numbers_of`,
// where it was tried first: under a const parameter the proof of the loop did not close.
fn fill_numbers(text: &[u8], numbers: &mut [usize]) -> Option<()>
    ensures { Filled text.now (length numbers.old) result numbers.new }
{
    let mut fields = text.split(|byte| *byte == TAB);
    for number in numbers {
        *number = number_of(fields.next()?)?;
    }
    match fields.next() {
        Some(_) => None,
        None => Some(()),
    }
}

// What the fields of a text say, if they are so many numbers.
fn numbers_of<const N: usize>(text: &[u8]) -> Option<[usize; N]>
    ensures { result ≡ numbers_of N text.now }
{
    let mut numbers = [0; N];
    fill_numbers(text, &mut numbers)?;
    Some(numbers)
}

// What a line says as the first of a capture.
pub fn head_of(line: &[u8]) -> Option<FirstLine>
    ensures { result ≡ head_of line.now }
{
    let (word, rest) = split_at_first(line, TAB)?;
    if word != b"net".as_slice() {
        return None;
    }
    let [capture, n, s, t, k] = numbers_of::<5>(rest)?;
    Some(FirstLine {
        capture,
        n,
        s,
        t,
        k,
    })
}

// What a line says as any other of a capture.
pub fn line_of(line: &[u8]) -> Option<Line>
    ensures { result ≡ line_of line.now }
{
    let (word, rest) = split_at_first(line, TAB)?;
    if word == b"link".as_slice() {
        let [u, v] = numbers_of::<2>(rest)?;
        return Some(Line::Link(u, v));
    }
    if word == b"hand".as_slice() {
        let [v] = numbers_of::<1>(rest)?;
        return Some(Line::Hand(v));
    }
    None
}
