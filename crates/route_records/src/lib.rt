// A route record for every radio, in a list that the caller lends. The covered core judges the path list and makes the records of
// all radios from it: `judge`, `records_of`. `set_route`, `fill` and `fog_routes` have a `&mut [Route]`: they are thin.
#![tactic(auto)]

ghost use Rattle.std.specs.Prelude.{◌≡◌, ◌++◌, ◌+◌, ◌*◌, ◌≤◌, ◌<◌, length, set, drop};
ghost use Rattle.basics.specs.Lists.{All, Different};
ghost use Rattle.site.specs.Limits.{most_radios, most_paths};
ghost use Rattle.path_lists.specs.Reading.{paths_read};
ghost use Rattle.route_records.specs.Records.{alone, record_at, records_of, routes_verdict};
ghost use Rattle.route_records.specs.Filling.{Tellable, PathLaid};
ghost use Rattle.route_records.specs.Promise.{RoutesPromise};

use refusals::Refusal;

// What a radio is to the paths, by its number.
#[derive(Clone, Copy, Debug, PartialEq, Eq)]
pub enum Role {
    OffPaths = 0,
    OnPath = 1,
    Source = 2,
    Sink = 3,
}

// What a fitter loads into one radio: its role, the number of its path, the radio before it and the radio after. C's struct has a
// byte for the role.
#[repr(C)]
#[derive(Clone, Copy, Debug, PartialEq, Eq)]
pub struct Route {
    pub role: u8,
    pub path: u8,
    pub before: u8,
    pub after: u8,
}

impl Route {
    // The record of a radio that has its role alone.
    fn alone(role: Role) -> Route
        ensures { result ≡ alone role }
    {
        Route {
            role: role as u8,
            path: 0,
            before: 0,
            after: 0,
        }
    }
}

// Each radio of the path with this number gets its record; those of the others stay.
fn put_path(records: &mut [Route; site::MOST_RADIOS], path: &[u8], number: usize)
    requires number_le_most_paths { number ≤ most_paths }
    requires all { All (λ v. v < most_radios) path.now × Different path.now }
    ensures { PathLaid number path.now records.old (length path.now) records.new }
{
    let [source, ..] = path else {
        return;
    };
    records[*source as usize] = Route::alone(Role::Source);
    let [_, .., sink] = path else {
        return;
    };
    for near in path.windows(3) {
        records[near[1] as usize] = Route {
            role: Role::OnPath as u8,
            path: number as u8,
            before: near[0],
            after: near[2],
        };
    }
    records[*sink as usize] = Route::alone(Role::Sink);
}

// The records of as many radios as there can be, by the first `count` paths of the list.
fn records_of(count: usize, paths: &[u8]) -> [Route; site::MOST_RADIOS]
    requires { Tellable count paths.now }
    ensures { result ≡ records_of (paths_read count paths.now) most_radios }
{
    let mut records = [Route::alone(Role::OffPaths); site::MOST_RADIOS];
    let mut at = 0;
    // By number, which the records of a path hold; where the next path stands the one before says.
    for i in 0..count {
        let path = path_lists::path_at(paths, at);
        put_path(&mut records, path, i + 1);
        at = at + 1 + path.len();
    }
    records
}

// Refusals 1, 20 and 21, for a list of so many records.
#[tactic(auto, unfolding(crate::specs::Records::routes_verdict))]
fn judge(n: usize, records: usize, count: usize, paths: &[u8]) -> Result<(), Refusal>
    ensures { result ≡ routes_verdict n records count paths.now }
{
    if refusals::too_few(n) || refusals::too_many(n) {
        return Err(Refusal::Radios);
    }
    if records < n {
        return Err(Refusal::Records);
    }
    if count > site::MOST_PATHS || !path_lists::is_sound(paths, count, n) {
        return Err(Refusal::PathList);
    }
    Ok(())
}

// Sets one record.
fn set_route(routes: &mut [Route], v: usize, route: Route)
    requires { v < length routes.old }
    ensures { routes.new ≡ set routes.old v route }
{
    routes[v] = route;
}

// Sets as many records as are given, from the first on; the others stay.
fn fill(routes: &mut [Route], records: &[Route])
    requires { length records.now ≤ length routes.old }
    ensures { routes.new ≡ records.now ++ drop (length records.now) routes.old }
{
    for (v, record) in records.iter().enumerate() {
        set_route(routes, v, *record);
    }
}

// The route records of a map of n radios, by the first `count` paths of a list as a survey leaves it. It accepts any numbers and any
// bytes: what is not in order is refused by number, 1, 20 or 21, and then no record is changed. Records past n stay as they were.
// The answer is a number, 0 for none, as C has it.
pub fn fog_routes(n: usize, count: usize, paths: &[u8], routes: &mut [Route]) -> usize
    ensures { RoutesPromise (record { n = n; count = count; list = paths.now; records = routes.old }) result routes.new }
{
    if let Err(refusal) = judge(n, routes.len(), count, paths) {
        return refusal.number();
    }
    let records = records_of(count, paths);
    fill(routes, &records[..n]);
    0
}
