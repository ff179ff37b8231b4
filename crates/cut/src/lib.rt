// The cut list that a run leaves: one item for each path, where it leaves the entered halves.
#![tactic(auto)]

ghost use Rattle.std.specs.Prelude.{◌≡◌, List, ◌++◌, ℕ, eqb, drop};
ghost use Rattle.site.specs.Map.{Site};
ghost use Rattle.tokens.specs.Run.{at_link, item_of, cut_of};
ghost use Rattle.path_lists.specs.Bytes.{Holds};
ghost use Rattle.halves.specs.Bytes.{entered_of};
ghost use Rattle.cut.specs.Cut.{Ends, AreRadios, Cuttable};

use halves::Entered;

// The item of a path that leaves the entered halves over the link from u to v: never T, and the direct link where u is S. The two
// ends go as two numbers: a struct of them would be made for this one question.
fn at_link(u: u8, v: u8, s: usize, t: usize) -> u8
    ensures { result ≡ at_link (eqb v t) (eqb u s) u v }
{
    if v as usize != t {
        return v;
    }
    if u as usize != s {
        return u;
    }
    site::DIRECT_LINK
}

// The cut item of one path, given its radios from S on and the entered halves.
fn cut_item(radios: &[u8], entered: &Entered, s: usize, t: usize) -> u8
    requires { AreRadios radios.now }
    ensures { (site : Site) → Ends s t site → result ≡ item_of site (entered_of entered.now) radios.now }
{
    // Every path has radios; the definition has 0 where there are none.
    let Some((&first, others)) = radios.split_first() else {
        return 0;
    };
    let mut u = first;
    for &v in others {
        let half = 2 * v as usize;
        if !entered.is_entered(half) {
            return at_link(u, v, s, t);
        }
        if !entered.is_entered(half + 1) {
            return v;
        }
        u = v;
    }
    u
}

// One item for each of the `count` paths at the front of the path list, in path order; the bytes after them stay. The list does not
// say where its paths end: their number is the run's.
pub fn write_cut(paths: &[u8], count: usize, entered: &Entered, s: usize, t: usize, cut: &mut [u8])
    requires { Cuttable paths.now count cut.old }
    ensures { (site : Site) (ps : List (List ℕ)) → Ends s t site → Holds paths.now count ps → cut.new ≡ cut_of site (entered_of entered.now) ps ++ drop count cut.old }
{
    let mut at = 0;
    // Where the next path stands the one before says.
    for item in &mut cut[..count] {
        let path = path_lists::path_at(paths, at);
        *item = cut_item(path, entered, s, t);
        at += 1 + path.len();
    }
}
