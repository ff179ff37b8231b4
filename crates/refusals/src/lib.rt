// What the check of a call answers against it, and the numbers of these refusals. The definitions are in specs/.
#![tactic(auto)]

ghost use Rattle.std.specs.Prelude.{◌≡◌, Err};
ghost use Rattle.refusals.specs.Refusals.{number, place_of, refusal_of, too_few, too_many};

// A kit has at least so many radios.
const FEWEST_RADIOS: usize = 2;

// What is wrong with a cell of the table, and its place: it is not 0 or 1, or it differs from its mirror cell.
#[derive(Clone, Copy, Debug, PartialEq, Eq)]
pub enum BadCell {
    Value(usize),
    Mirror(usize),
}

// What a call is told before any token is sent, where it is not accepted: the first reason against it, in the order of the
// documents.
#[derive(Clone, Copy, Debug, PartialEq, Eq)]
pub enum Refusal {
    Radios,
    TableLength,
    CellValue(usize),
    CellMirror(usize),
    Links,
    Ends,
    Wanted,
    Log,
    Lists,
    Records,
    PathList,
}

impl Refusal {
    // The documents' number. It is no discriminant: a refusal for a cell has its place besides.
    pub fn number(self) -> usize
        ensures { result ≡ number (Err self) }
    {
        match self {
            Refusal::Radios => 1,
            Refusal::TableLength => 2,
            Refusal::CellValue(_) => 3,
            Refusal::CellMirror(_) => 13,
            Refusal::Links => 4,
            Refusal::Ends => 5,
            Refusal::Wanted => 6,
            Refusal::Log => 7,
            Refusal::Lists => 8,
            Refusal::Records => 20,
            Refusal::PathList => 21,
        }
    }

    // Its place: only a bad cell has one.
    pub fn place(self) -> usize
        ensures { result ≡ place_of (Err self) }
    {
        match self {
            Refusal::CellValue(place) | Refusal::CellMirror(place) => place,
            _ => 0,
        }
    }
}

// A call whose table has a bad cell is refused for it.
impl From<BadCell> for Refusal {
    ghost from_gives = { λ bad refusal. refusal ≡ refusal_of bad };

    fn from(bad: BadCell) -> Refusal {
        match bad {
            BadCell::Value(place) => Refusal::CellValue(place),
            BadCell::Mirror(place) => Refusal::CellMirror(place),
        }
    }
}

// Refusal 1: fewer radios than a kit has. Two questions and not one: so each caller branches twice, and the compiler knows both
// limits from there on.
pub fn too_few(n: usize) -> bool
    ensures { result ≡ too_few n }
{
    n < FEWEST_RADIOS
}

// Refusal 1: more radios than a kit has.
pub fn too_many(n: usize) -> bool
    ensures { result ≡ too_many n }
{
    n > site::MOST_RADIOS
}
