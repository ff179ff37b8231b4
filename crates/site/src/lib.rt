// What several parts of the code share: the limits of document 01, and where a cell stands. The definitions are in specs/.
#![tactic(auto)]

ghost use Rattle.std.specs.Prelude.{◌≡◌, ◌+◌, ◌*◌, ◌≤◌, ◌<◌};
ghost use Rattle.site.specs.Limits.{most_radios};

// A kit has at most so many radios: a set of them is one u64.
pub const MOST_RADIOS: usize = 64;

// There are at most so many halves, two to a radio.
pub const MOST_HALVES: usize = 128;

// So many links keep the log of any run below 40,000 bytes.
pub const MOST_LINKS: usize = 256;

// No sheet promises more paths than this.
pub const MOST_PATHS: usize = 8;

// How a cut names the direct link between S and T: no radio has this number. A cut is a list of bytes, so it is a byte and no Option.
pub const DIRECT_LINK: u8 = 255;

// The number of the cell of row i and column j. The product of two unknowns stands here alone. n goes with no table here, so its bound
// is a clause.
pub fn place(n: usize, i: usize, j: usize) -> usize
    requires { (n ≤ most_radios) × (i < n) × (j < n) }
    ensures { (result ≡ i * n + j) × (result < n * n) }
{
    i * n + j
}
