// The path list: for each path its number of radios, then the radios. Whoever walks a list reads it here, and a list from elsewhere
// is judged here.
#![tactic(auto)]

ghost use Rattle.std.specs.Prelude.{◌≡◌, false, not, ◌&&◌, ◌||◌, List, [], ◌∷◌, ◌++◌, ℕ, ◌+◌, ◌≤◌, ◌<◌, leb, length};
ghost use Rattle.site.specs.Limits.{most_radios};
ghost use Rattle.path_lists.specs.Reading.{path_end, Inside, path_at, readable, paths_read};
ghost use Rattle.path_lists.specs.Judge.{inner, fresh, joins, is_direct, sound_after, is_sound};
ghost use Rattle.path_lists.specs.Seen.{IsSet, SeesIf};

use radios::Radios;

// The radios of the path at this place of the list, which must be long enough for it. The next path stands one byte and so many
// radios further on.
pub fn path_at(list: &[u8], at: usize) -> &[u8]
    requires { Inside list.now at }
    ensures radios { result.now ≡ path_at list.now at }
    ensures next { at + 1 + length result.now ≡ path_end list.now at }
    ensures inside { at + 1 + length result.now ≤ length list.now }
{
    let start = at + 1;
    &list[start..start + list[at] as usize]
}

// Is the list long enough for the path at this place? A list is walked by places: it does not say where its paths stand.
pub fn is_whole(list: &[u8], at: usize) -> bool
    ensures { result ≡ leb (path_end list.now at) (length list.now) }
{
    at < list.len() && (list[at] as usize) < list.len() - at
}

// What the judge has seen of a list that is in order so far: whether a path took the direct link, and the radios that may stand
// inside no further path.
#[derive(Clone, Copy)]
struct Seen {
    direct: bool,
    set: Radios,
}

// The two ends of all paths, radios below n.
#[derive(Clone, Copy)]
struct Ends {
    n: usize,
    s: u8,
    t: u8,
    ghost few: { n ≤ most_radios },
    ghost below: { (s < n) × (t < n) },
}

impl Seen {
    // The radios inside a path besides: each must be below n and none of those seen. Of the ends it needs n alone.
    fn with_inner(self, inside: &[u8], n: usize) -> Option<Seen>
        requires { n ≤ most_radios }
        ensures { (before : List ℕ) → IsSet self.set before → SeesIf (fresh n before inside.now) (inside.now ++ before) self.direct result }
    {
        let mut set = self.set;
        for v in inside {
            let v = *v as usize;
            if v >= n || set.has(v) {
                return None;
            }
            set = set.with(v);
        }
        Some(Seen { set, ..self })
    }

    // One path besides, from end to end: two radios or more, the direct link once at most, and inside it no radio twice.
    #[tactic(auto, unfolding(crate::specs::Judge::joins, crate::specs::Judge::fresh))]
    fn with_path(self, path: &[u8], ends: Ends) -> Option<Seen>
        ensures { (before : List ℕ) → IsSet self.set before → SeesIf (joins ends.s ends.t path.now && not (self.direct && is_direct path.now) && fresh ends.n before (inner path.now)) (inner path.now ++ before) (self.direct || is_direct path.now) result }
    {
        let [first, inside @ .., last] = path else {
            return None;
        };
        if *first != ends.s || *last != ends.t {
            return None;
        }
        if inside.is_empty() {
            if self.direct {
                return None;
            }
            return Some(Seen {
                direct: true,
                ..self
            });
        }
        self.with_inner(inside, ends.n)
    }
}

// Are the first `count` paths of the list whole, from end to end and disjoint?
fn are_sound(list: &[u8], count: usize, ends: Ends) -> bool
    ensures { result ≡ (readable count list.now && sound_after ends.n ends.s ends.t (ends.s ∷ ends.t ∷ []) false (paths_read count list.now)) }
{
    let mut seen = Seen {
        direct: false,
        set: Radios::none().with(ends.t as usize).with(ends.s as usize),
    };
    let mut rest = list;
    // So many paths are asked for, and where the next stands the one before says.
    for _ in 0..count {
        if !is_whole(rest, 0) {
            return false;
        }
        let path = path_at(rest, 0);
        let Some(next) = seen.with_path(path, ends) else {
            return false;
        };
        seen = next;
        rest = &rest[1 + path.len()..];
    }
    true
}

// Does the list hold so many whole paths at its front, disjoint lists of two or more different radios below n with the same first
// and the same last? What stands after them is not read. n is a caller's number, and its bound a clause.
pub fn is_sound(list: &[u8], count: usize, n: usize) -> bool
    requires { n ≤ most_radios }
    ensures { result ≡ (readable count list.now && is_sound n (paths_read count list.now)) }
{
    if count == 0 {
        return true;
    }
    if !is_whole(list, 0) {
        return false;
    }
    let [s, .., t] = path_at(list, 0) else {
        return false;
    };
    if *s as usize >= n || *t as usize >= n || s == t {
        return false;
    }
    are_sound(list, count, Ends { n, s: *s, t: *t })
}
