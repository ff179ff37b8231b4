// The route records as C calls for them: include/fogsignaller.h declares the call and the record. A crate is a library or a static
// library, so the export has its own.
#![tactic(auto)]

ghost use Rattle.route_records.specs.Promise.{RoutesPromise};

use route_records::Route;

// The call of the crate route_records, under the very same promise.
#[unsafe(no_mangle)]
pub extern "C" fn fog_routes(n: usize, count: usize, paths: &[u8], routes: &mut [Route]) -> usize
    ensures { RoutesPromise (record { n = n; count = count; list = paths.now; records = routes.old }) result routes.new }
{
    route_records::fog_routes(n, count, paths, routes)
}
