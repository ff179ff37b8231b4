// The survey: one public call that finds the disjoint paths of a site, or says why not, and leaves nothing of what was there.
#![tactic(auto)]

ghost use Rattle.std.specs.Prelude.{◌≡◌, cond, List, [], ℕ, length, replicate, ltb, Err};
ghost use Rattle.site.specs.Map.{Site};
ghost use Rattle.refusals.specs.Refusals.{call_of, number, place_of};
ghost use Rattle.tokens.specs.Run.{cut_of};
ghost use Rattle.buffers.specs.Zeros.{zeros_after};
ghost use Rattle.halves.specs.Bytes.{entered_of};
ghost use Rattle.path_lists.specs.Bytes.{Holds};
ghost use Rattle.cut.specs.Cut.{Ends, Cuttable};
ghost use Rattle.demands.specs.Promise.{Promise};
ghost use Rattle.survey.specs.Parts.{Given, LeftBehind};

use halves::Entered;
use machine::{Board, Task};
use outcome::Outcome;
use radios::Radios;
use refusals::Refusal;

// A refused call leaves zeros in every buffer lent for results, whatever they held: three buffers, as C lends them.
fn refused(refusal: Refusal, log: &mut [u8], paths: &mut [u8], cut: &mut [u8]) -> Outcome
    ensures value { result ≡ record { refusal = number (Err refusal); place = place_of (Err refusal); paths = 0; rounds = 0; messages = 0 } }
    ensures log_after { log.new ≡ replicate (length log.old) 0 }
    ensures paths_after { paths.new ≡ replicate (length paths.old) 0 }
    ensures cut_after { cut.new ≡ replicate (length cut.old) 0 }
{
    // Taken first, so that the refusal need not be kept while the buffers are cleared.
    let outcome = Outcome::refused(refusal.number(), refusal.place());
    buffers::clear_from(log, 0);
    buffers::clear_from(paths, 0);
    buffers::clear_from(cut, 0);
    outcome
}

// The cut of a run that found `count` paths: one item for each where a path is lacking, none in a full run; then zeros. The
// list does not say how many paths it has.
fn leave_cut(task: &Task, paths: &[u8], count: usize, entered: &Entered, cut: &mut [u8])
    requires { Cuttable paths.now count cut.old }
    ensures { (site : Site) (ps : List (List ℕ)) → Ends task.now.s task.now.t site → Holds paths.now count ps → cut.new ≡ zeros_after (length cut.old) (cond (ltb count task.now.k) (cut_of site (entered_of entered.now) ps) []) }
{
    if count < task.k {
        cut::write_cut(paths, count, entered, task.s, task.t, cut);
        buffers::clear_from(cut, count);
        return;
    }
    buffers::clear_from(cut, 0);
}

// An accepted call: the run fills the log, the paths are those that its DONE messages tell, and zeros stand past all that is used.
fn accepted(
    task: &Task,
    links: &[Radios; 64],
    log: &mut [u8],
    paths: &mut [u8],
    cut: &mut [u8],
) -> Outcome
    requires { Given task.now links.now log.old paths.old cut.old }
    ensures { (given : Given task.now links.now log.old paths.old cut.old) → LeftBehind given.call result log.new paths.new cut.new }
{
    let mut board = Board::blank();
    let budget = log.len() / message_log::MESSAGE_BYTES;
    let ran = running::run(task, budget, links, &mut board, log);
    let listed = paths::write_paths(log, ran.messages, task.s, paths);
    leave_cut(task, paths, listed.paths, &board.entered, cut);
    buffers::clear_from(log, message_log::MESSAGE_BYTES * ran.messages);
    buffers::clear_from(paths, listed.used);
    Outcome {
        refusal: 0,
        place: 0,
        paths: listed.paths,
        rounds: ran.rounds,
        messages: ran.messages,
    }
}

// The survey of a map of n radios, from s to t, for k paths. The table is only read. It accepts any numbers and any
// lengths: what is not in order is refused by number, in the order of document 01. The log, the path list and the cut list
// are left with the outcome and zeros after it; a refused call leaves zeros throughout and all counts 0.
pub fn fog_survey(
    n: usize,
    table: &[u8],
    s: usize,
    t: usize,
    k: usize,
    log: &mut [u8],
    paths: &mut [u8],
    cut: &mut [u8],
) -> Outcome
    ensures { Promise (call_of n table.now s t k (length log.old) (length paths.old) (length cut.old)) result log.new paths.new cut.new }
{
    let mut links = [Radios::none(); site::MOST_RADIOS];
    let judged = checks::judge(
        n,
        table,
        s,
        t,
        k,
        log.len(),
        paths.len(),
        cut.len(),
        &mut links,
    );
    match judged {
        Err(refusal) => refused(refusal, log, paths, cut),
        Ok(passing) => {
            let task = Task {
                n,
                s,
                t,
                k,
                passing,
            };
            accepted(&task, &links, log, paths, cut)
        }
    }
}
