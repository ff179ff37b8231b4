// The checks before a run: the table with its links as sets of radios, the number of steps, and the refusals of a call.
#![tactic(auto)]

ghost use Rattle.std.specs.Prelude.{◌≡◌, true, ◌&&◌, ◌||◌, ◌↔◌, ℕ, ◌+◌, ◌*◌, ◌/◌, ◌≤◌, ◌<◌, eqb, ltb, length, get_or};
ghost use Rattle.basics.specs.Counting.{one_if, sum};
ghost use Rattle.radios.specs.Bytes.{Bits, is_one};
ghost use Rattle.radios.specs.Member.{member};
ghost use Rattle.site.specs.Limits.{most_radios, most_paths};
ghost use Rattle.radios.specs.Links.{Ordinary, Passing};
ghost use Rattle.site.specs.Map.{Site, linked};
ghost use Rattle.refusals.specs.Refusals.{cell_finding, finding, call_of, pair_verdict, room_verdict};
ghost use Rattle.checks.specs.Checked.{AgreeTo, joined, members, size, Gathered, Checked, Countable, MapJudged, most_steps, Judged};

use radios::Radios;
use refusals::{BadCell, Refusal};

// So many cells of a row are read at once.
const AT_ONCE: usize = 8;

// What is wrong with the cell at this place: the first of the two kinds that it is of.
#[tactic(auto, unfolding(refusals::specs::Refusals::cell_finding))]
fn judge_cell(place: usize, cell: u8, mirror: u8) -> Result<(), BadCell>
    ensures { result ≡ cell_finding place cell mirror }
{
    if cell > 1 {
        Err(BadCell::Value(place))
    } else if cell != mirror {
        Err(BadCell::Mirror(place))
    } else {
        Ok(())
    }
}

// The set, with radio v besides where the test holds. A choice of two values and no branch around a store: no processor
// guesses which cells are 1.
fn with_where(set: Radios, v: usize, test: bool) -> Radios
    requires { v < most_radios }
    ensures { (j : ℕ) → member j result ≡ ((test && eqb j v) || member j set) }
{
    if test { set.with(v) } else { set }
}

// The radios of a set join row u. A radio is a plain number, the index of its row.
fn widen(rows: &mut [Radios; 64], u: usize, set: Radios)
    requires { u < most_radios }
    ensures { (a b : ℕ) → member b (get_or rows.new a 0) ≡ ((eqb a u && member b set) || member b (get_or rows.old a 0)) }
{
    rows[u] = set.both(rows[u]);
}

// Radio i and those of a set become neighbours: the set joins row i, and i the row of each of them.
fn spread(rows: &mut [Radios; 64], i: usize, row: Radios)
    requires { i < most_radios }
    ensures { (u v : ℕ) → member v (get_or rows.new u 0) ≡ joined i row rows.old u v }
{
    widen(rows, i, row);
    let alone = Radios::none().with(i);
    let mut rest = row;
    while let Some(v) = rest.first() {
        widen(rows, v, alone);
        rest = rest.without_first(v);
    }
}

// Is every cell 0 or 1? No early end: a plain pass over all cells takes many of them at a time. What is found here of the whole table
// is asked by each function that reads a part of it, and is in no type: a table that comes in need not be so.
fn all_bits(cells: &[u8]) -> bool
    ensures { (result ≡ true) ↔ Bits cells.now }
{
    cells.iter().copied().fold(0, |a, b| a.max(b)) <= 1
}

// The cells of a row as a set, eight at a time: those that fill no eight are left out.
fn eights(row: &[u8]) -> Radios
    requires bits { Bits row.now }
    requires few { length row.now ≤ most_radios }
    ensures { (j : ℕ) → member j result ≡ (ltb j (8 * (length row.now / 8)) && is_one row.now j) }
{
    let mut set = Radios::none();
    // By number: it says where an eight stands, and how far its radios are raised. Over `chunks_exact` the proof did not close.
    for k in 0..row.len() / AT_ONCE {
        let at = AT_ONCE * k;
        set = Radios::of_eight(row, at).raised(at).both(set);
    }
    set
}

// The cells of a row that are 1, as a set.
fn ones(row: &[u8]) -> Radios
    requires bits { Bits row.now }
    requires few { length row.now ≤ most_radios }
    ensures { (j : ℕ) → member j result ≡ (ltb j (length row.now) && is_one row.now j) }
{
    let mut set = eights(row);
    // By number: the place of a cell in its row is the radio that it tells of, and the first of these is not the row's.
    for j in AT_ONCE * (row.len() / AT_ONCE)..row.len() {
        set = with_where(set, j, row[j] == 1);
    }
    set
}

// Do two sets have the same radios up to i?
fn agree_to(x: Radios, y: Radios, i: usize) -> bool
    requires { i < most_radios }
    ensures { (result ≡ true) ↔ AgreeTo x y i }
{
    let differ = x.and_not(y).both(y.and_not(x));
    differ.first().is_none_or(|first| first > i)
}

// The cells of a table of n radios, row after row.
#[derive(Clone, Copy)]
struct Table<'a> {
    cells: &'a [u8],
    n: usize,
    ghost square: { (n ≤ most_radios) × (length cells.now ≡ n * n) },
}

impl<'a> Table<'a> {
    // The cell of row i and column j.
    fn cell(self, i: usize, j: usize) -> u8
        requires { (i < self.n) × (j < self.n) }
        ensures { result ≡ get_or self.entry.cells.now (i * self.entry.n + j) 0 }
    {
        self.cells[site::place(self.n, i, j)]
    }

    // Row i as a set: the radios that i is linked to. Its own cell tells of no link.
    fn row_of(self, i: usize) -> Radios
        requires bits { Bits self.cells.now }
        requires i_lt_n { i < self.n }
        ensures { (j : ℕ) → member j result ≡ linked self.entry.cells.now self.entry.n i j }
    {
        let start = site::place(self.n, i, 0);
        ones(&self.cells[start..start + self.n]).without(i)
    }

    // Is the table sound? Then the rows are its links. The rows before row i have told radio i of its neighbours before it:
    // up to the diagonal row i must say the same, and those after i are told of it.
    fn gather(self, rows: &mut [Radios; 64]) -> bool
        ensures { Gathered self.entry.cells.now self.entry.n rows.new result }
    {
        if !all_bits(self.cells) {
            return false;
        }
        rows.fill(Radios::none());
        // By number: each row changes those after it.
        for i in 0..self.n {
            let row = self.row_of(i);
            let told = rows[i];
            if !agree_to(row, told, i) {
                return false;
            }
            spread(rows, i, row.and_not(told));
        }
        true
    }

    // The first bad cell in row order, where there is one, and what is wrong with it. The order is what is promised, so the cells
    // are gone through by row and column. It is never below the diagonal, where its mirror cell comes first, so a row is scanned
    // from the diagonal on.
    fn first_bad(self) -> Result<(), BadCell>
        ensures { result ≡ finding self.entry.cells.now self.entry.n }
    {
        let mut found = Ok(());
        'rows: for i in 0..self.n {
            for j in i..self.n {
                let place = site::place(self.n, i, j);
                found = judge_cell(place, self.cell(i, j), self.cell(j, i));
                if found.is_err() {
                    break 'rows;
                }
            }
        }
        found
    }

    // The first bad cell in row order, where there is one; where there is none, the rows are the table's links. A sound table
    // is told so by its rows, many cells at a time: only a bad one is scanned cell by cell.
    fn check(self, rows: &mut [Radios; 64]) -> Result<(), BadCell>
        ensures { Checked self.entry.cells.now self.entry.n rows.new result }
    {
        if self.gather(rows) {
            Ok(())
        } else {
            self.first_bad()
        }
    }

    // The radios of a sound table that are no handhelds: those whose own cell is not 1.
    #[tactic(auto, unfolding(site::specs::Map::handheld))]
    fn ordinary(self) -> Radios
        ensures { Ordinary self.entry.cells.now self.entry.n result }
    {
        let mut set = Radios::none();
        // By number: it is the radio, and says where its own cell stands.
        for v in 0..self.n {
            set = with_where(set, v, self.cell(v, v) != 1);
        }
        set
    }
}

// The sizes of the first n rows together: each link is counted at both its radios. The rows are no table, so n goes with them.
fn total_of_rows(rows: &[Radios; 64], n: usize) -> usize
    requires { n ≤ most_radios }
    ensures { result ≡ sum (size rows.now) n }
{
    let mut total = 0;
    for row in &rows[..n] {
        total += row.count();
    }
    total
}

// Those that may stand inside a path: all but S and T.
#[tactic(auto, unfolding(site::specs::Map::passes))]
fn passing(ordinary: Radios, s: usize, t: usize) -> Radios
    requires { (s < most_radios) × (t < most_radios) }
    ensures { (site : Site) → site.S ≡ s → site.T ≡ t → Ordinary site.table site.n ordinary → Passing site result }
{
    ordinary.without(s).without(t)
}

// A, the number of steps: one inside each radio that passes, and those of the links, from the rows and their total. Left out are
// the steps into S and those out of T; where S and T are linked, the one from T to S is among both, so it is added back.
fn steps(rows: &[Radios; 64], total: usize, passing: Radios, s: usize, t: usize) -> usize
    requires { Countable rows.now total s t }
    ensures { result + size rows.now s + size rows.now t ≡ total + one_if (member t (get_or rows.now s 0)) + members passing }
{
    let others = total - rows[s].count() - rows[t].count() + passing.count();
    others + rows[s].has(t) as usize
}

// An accepted map: twice the number of its links, and its radios that are no handhelds.
#[derive(Clone, Copy)]
pub struct SoundMap {
    pub total: usize,
    pub ordinary: Radios,
}

// Refusals 1 to 4 and 13. An accepted map finds its links in the rows; after a refusal they hold what the checks left there.
#[tactic(auto, unfolding(refusals::specs::Refusals::map_verdict))]
pub fn judge_map(n: usize, table: &[u8], rows: &mut [Radios; 64]) -> Result<SoundMap, Refusal>
    ensures { MapJudged table.now n rows.new result }
{
    if refusals::too_few(n) || refusals::too_many(n) {
        return Err(Refusal::Radios);
    }
    if table.len() != n * n {
        return Err(Refusal::TableLength);
    }
    let table = Table { cells: table, n };
    table.check(rows)?;
    let total = total_of_rows(rows, n);
    if total / 2 > site::MOST_LINKS {
        return Err(Refusal::Links);
    }
    Ok(SoundMap {
        total,
        ordinary: table.ordinary(),
    })
}

// Refusals 5 and 6: the two ends among n radios, and the number of paths wanted.
#[tactic(auto, unfolding(refusals::specs::Refusals::pair_verdict))]
pub fn judge_pair(n: usize, s: usize, t: usize, k: usize) -> Result<(), Refusal>
    ensures { result ≡ pair_verdict n s t k }
{
    if s >= n || t >= n || s == t {
        return Err(Refusal::Ends);
    }
    if k == 0 || k > site::MOST_PATHS {
        return Err(Refusal::Wanted);
    }
    Ok(())
}

// Refusals 7 and 8: the lengths of the lent buffers, for k paths among n radios over so many steps. All are a caller's numbers.
#[tactic(auto, unfolding(refusals::specs::Refusals::room_verdict))]
pub fn judge_room(
    n: usize,
    k: usize,
    steps: usize,
    log: usize,
    paths: usize,
    cut: usize,
) -> Result<(), Refusal>
    requires le_n { (2 ≤ n) × (n ≤ most_radios) }
    requires k_le_most_paths { (k ≤ most_paths) × (steps ≤ most_steps) }
    ensures { result ≡ room_verdict n k steps log paths cut }
{
    let most_messages = (2 * k + 1) * steps;
    if log < message_log::MESSAGE_BYTES * most_messages {
        return Err(Refusal::Log);
    }
    if paths < n - 2 + 3 * k || cut < k {
        return Err(Refusal::Lists);
    }
    Ok(())
}

// What a call is told before any token is sent: the refusals in their order, or the radios that may stand inside a path. log, paths
// and cut are the lengths of the lent buffers; the numbers are a caller's, one by one as C hands them over. An accepted call finds its
// links in the rows; after a refusal they hold what the checks left there.
pub fn judge(
    n: usize,
    table: &[u8],
    s: usize,
    t: usize,
    k: usize,
    log: usize,
    paths: usize,
    cut: usize,
    rows: &mut [Radios; 64],
) -> Result<Radios, Refusal>
    ensures { Judged (call_of n table.now s t k log paths cut) rows.new result }
{
    let map = judge_map(n, table, rows)?;
    judge_pair(n, s, t, k)?;
    let inner = passing(map.ordinary, s, t);
    let a = steps(rows, map.total, inner, s, t);
    judge_room(n, k, a, log, paths, cut)?;
    Ok(inner)
}
