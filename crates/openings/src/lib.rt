// What each half can walk to now, as a set of radios for each half that the caller lends. Halves and radios are plain numbers, made from
// one another and used as indices, so that their bounds stand in clauses.
#![tactic(auto)]

ghost use Rattle.std.specs.Prelude.{◌≡◌, not, cond, ◌&&◌, List, ℕ, suc, ◌+◌, ◌*◌, ◌/◌, ◌≤◌, ◌<◌, eqb, get_or, IfSome};
ghost use Rattle.radios.specs.Member.{member};
ghost use Rattle.site.specs.Limits.{most_radios};
ghost use Rattle.site.specs.Map.{Site, in_half, out_half, step};
ghost use Rattle.tokens.specs.Rules.{Marks, may_walk, unmarked, reversed};
ghost use Rattle.openings.specs.Rows.{across, Open, Joined, OnSteps, Untried, NextHalf, NextMarked, place_in_order};
ghost use Rattle.radios.specs.Links.{RowsOfLinks, Passing};

use radios::Radios;

// ---- the start: nothing is marked

// What the in half of radio u can walk to: its own out half, if u is one of those that may stand inside a path.
fn inside(passing: Radios, u: usize) -> Radios
    requires { u < most_radios }
    ensures { (v : ℕ) → member v result ≡ (eqb v u && member u passing) }
{
    if !passing.has(u) {
        return Radios::none();
    }
    Radios::none().with(u)
}

// What radio u's out half can walk to: the in halves of the radios linked to it, but not S's. T has no out half.
fn outward(s: usize, t: usize, row: Radios, u: usize) -> Radios
    requires { s < most_radios }
    ensures { (site : Site) (links : List ℕ) (v : ℕ) → site.S ≡ s → site.T ≡ t → RowsOfLinks site.table site.n links → row ≡ get_or links u 0 → member v result ≡ step site (out_half u) (in_half v) }
{
    if u == t {
        return Radios::none();
    }
    row.without(s)
}

// The rows at the start, whatever was in them. A radio's number says where its two rows stand and what is in them, so that
// the loop counts the radios.
pub fn fill(
    n: usize,
    s: usize,
    t: usize,
    passing: Radios,
    links: &[Radios; 64],
    rows: &mut [Radios; 128],
)
    requires { (s < most_radios) × (n ≤ most_radios) }
    ensures { (site : Site) → site.n ≡ n → site.S ≡ s → site.T ≡ t → Passing site passing → RowsOfLinks site.table site.n links.now → Open site unmarked rows.new }
{
    rows.fill(Radios::none());
    for u in 0..n {
        rows[2 * u] = inside(passing, u);
        rows[2 * u + 1] = outward(s, t, links[u], u);
    }
}

// ---- a mark is reversed

// Radio v joins row h or leaves it.
fn toggle(rows: &mut [Radios; 128], h: usize, v: usize)
    requires { (h < 2 * most_radios) × (v < most_radios) }
    ensures { (a b : ℕ) → member b (get_or rows.new a 0) ≡ cond (eqb a h && eqb b v) (not (member b (get_or rows.old a 0))) (member b (get_or rows.old a 0)) }
{
    rows[h] = rows[h].flip(v);
}

// The mark between two joined halves is reversed: each can walk to the other now if it could not, and cannot if it could.
pub fn turn(rows: &mut [Radios; 128], h: usize, y: usize)
    requires { (h < 2 * most_radios) × (y < 2 * most_radios) }
    ensures { (site : Site) (marks : Marks) → Joined site h y → Open site marks rows.old → Open site (reversed site h y marks) rows.new }
{
    toggle(rows, h, y / 2);
    toggle(rows, y, h / 2);
}

// ---- rule 3: what a half tries next, and what is left then

// The half that radio v stands for in half h's row.
fn half_across(h: usize, v: usize) -> usize
    requires { v < most_radios }
    ensures { result ≡ across h v }
{
    2 * v + 1 - h % 2
}

// The half that half h tries next, of those it has left: the first of the others, its own other half last. That one is told
// by h alone, so that a processor which guesses that no other is left need not wait for the set.
pub fn next(left: Radios, h: usize) -> usize
    requires { (h < 2 * most_radios) × (left ≡ 0 → ⊥) }
    ensures { NextHalf left h result }
{
    match left.without(h / 2).first() {
        Some(v) => half_across(h, v),
        None if h % 2 == 1 => h - 1,
        None => h + 1,
    }
}

// What is left of half h's row once radio v has been tried.
pub fn after(row: Radios, h: usize, v: usize) -> Radios
    requires { (h < 2 * most_radios) × (v < most_radios) }
    ensures { (site : Site) (marks : Marks) → v < site.n → ((j : ℕ) → member j row ≡ may_walk site marks h (across h j)) → Untried site marks h (suc (place_in_order site h v)) result }
{
    let u = h / 2;
    if v == u {
        return Radios::none();
    }
    let above = row.from(v).without(v);
    let own = row.and_not(row.without(u));
    above.both(own)
}

// ---- rule 7: the marked steps

// The first radio from v on with a marked step from radio u's out half, where u is not T.
pub fn next_marked(
    s: usize,
    links: &[Radios; 64],
    rows: &[Radios; 128],
    u: usize,
    v: usize,
) -> Option<usize>
    requires { (s < most_radios) × (u < most_radios) × (v ≤ most_radios) }
    ensures next { (site : Site) (marks : Marks) → site.n ≤ most_radios → v ≤ site.n → site.S ≡ s → (u ≡ site.T → ⊥) → RowsOfLinks site.table site.n links.now → OnSteps site marks → Open site marks rows.now → NextMarked site marks (out_half u) v result }
    ensures below { IfSome result (λ w. w < most_radios) }
{
    let marked = links[u].and_not(rows[2 * u + 1]).without(s);
    marked.first_from(v)
}
