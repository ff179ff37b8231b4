// The survey as C calls it: include/fogsignaller.h declares it. A crate is a library or a static library, so the export has its own.
#![tactic(auto)]

ghost use Rattle.std.specs.Prelude.{length};
ghost use Rattle.refusals.specs.Refusals.{call_of};
ghost use Rattle.demands.specs.Promise.{Promise};

use outcome::Outcome;

// The call of the crate survey, under the very same promise.
#[unsafe(no_mangle)]
pub extern "C" fn fog_survey(
    n: usize,
    table: &[u8],
    s: usize,
    t: usize,
    k: usize,
    log: &mut [u8],
    paths: &mut [u8],
    cut: &mut [u8],
) -> Outcome
    ensures { Promise (call_of n table.now s t k (length log.old) (length paths.old) (length cut.old)) result log.new paths.new cut.new }
{
    survey::fog_survey(n, table, s, t, k, log, paths, cut)
}
