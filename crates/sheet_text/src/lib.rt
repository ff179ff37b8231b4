// One sheet written from the text of one capture.
#![tactic(auto)]

ghost use Rattle.std.specs.Prelude.{◌≡◌, ◌≤◌, length};
ghost use Rattle.buffers.specs.Zeros.{zeros_after};
ghost use Rattle.text_survey.specs.Survey.{TextSurvey};
ghost use Rattle.text_survey.specs.Delivered.{Delivered};
ghost use Rattle.sheet_text.specs.Sheet.{sheet_of, sheet_in};

use sheet_lines::{Report, Sheet};
use text_survey::Surveyed;

// No sheet is longer.
pub use sheet_lines::SHEET_ROOM;

// The sheet of a survey: its refusal, or the report, the paths and the cut. A full run has no cut.
fn sheet_of(found: Surveyed, paths: &[u8], cut: &[u8]) -> Sheet<SHEET_ROOM>
    requires { (survey : TextSurvey) × Delivered survey found paths.now cut.now }
    ensures { (survey : TextSurvey) → Delivered survey found paths.now cut.now → result ≡ sheet_of survey }
{
    let outcome = found.outcome;
    let mut sheet = Sheet::new();
    // The survey's reply is C's: a number says whether it is refused.
    if outcome.refusal != 0 {
        sheet.put_refused(outcome.refusal, outcome.place);
        return sheet;
    }
    let all = outcome.paths == found.wanted;
    sheet.put_report(Report {
        capture: found.capture,
        all,
        paths: outcome.paths,
        rounds: outcome.rounds,
        messages: outcome.messages,
    });
    sheet.put_paths(paths, outcome.paths);
    if !all {
        sheet.put_cut(&cut[..outcome.paths]);
    }
    sheet
}

// Writes the sheet of one capture and answers its length; all bytes of the buffer after it become 0. A buffer of fewer
// than 512 bytes could be too short, so nothing is written there: all its bytes become 0 and the answer is 0, which no
// sheet has as its length.
// (What this function promises may not change, so the answer is a number there too.)
pub fn write_sheet(text: &[u8], out: &mut [u8]) -> usize
    ensures value { result ≡ length (sheet_in (length out.old) text.now) }
    ensures out_after { out.new ≡ zeros_after (length out.old) (sheet_in (length out.old) text.now) }
    ensures upper_bound { result ≤ length out.new }
{
    if out.len() < SHEET_ROOM {
        out.fill(0);
        return 0;
    }
    let mut paths = [0; text_survey::PATH_BYTES];
    let mut cut = [0; text_survey::CUT_BYTES];
    let found = text_survey::survey_text(text, &mut paths, &mut cut);
    let sheet = sheet_of(found, &paths, &cut);
    let bytes = sheet.as_bytes();
    let used = bytes.len();
    out[..used].copy_from_slice(bytes);
    buffers::clear_from(out, used);
    used
}
