// The program: the text of one capture comes in by standard input, its sheet goes out by standard output. What fails is said on
// standard error.
#![tactic(auto)]

ghost use Rattle.std.specs.Prelude.{IfOk, length};
ghost use Rattle.sheet.specs.Reading.{Within, IsWhole};

use std::io;
use std::io::Read;
use streams::read_full;

// One byte more than a text may have, so that a longer one is seen.
const TEXT_BYTES: usize = text_survey::MOST_BYTES + 1;

// The bytes up to the end of the input or of the room for them. Half a capture must not become a sheet, so a read that fails
// is the answer.
fn read_text<'a, R: Read>(input: &mut R, room: &'a mut [u8]) -> io::Result<&'a [u8]>
    ensures within { IfOk result (λ text. Within (length room.old) text.now) }
    ensures whole { IfOk result (λ text. IsWhole (R.remaining input.old) (R.remaining input.new) (length room.old) text.now) }
{
    let length = read_full(input, room)?;
    Ok(&room[..length])
}

// Where nobody hears, nothing more can be done.
fn say(rt: &impl Eprint, words: &str) {
    let _ = rt.eprint(words);
}

fn write_sheet_of(rt: &(impl Print + Eprint), text: &[u8]) {
    let mut sheet = [0u8; sheet_text::SHEET_ROOM];
    let written = sheet_text::write_sheet(text, &mut sheet);
    if rt.write_all(&sheet[..written]).is_err() {
        say(rt, "sheet: standard output could not be written\n");
    }
}

fn main(rt: HostRuntime) {
    let mut room = [0u8; TEXT_BYTES];
    let Ok(text) = read_text(&mut rt.stdin(), &mut room) else {
        say(
            &rt,
            "sheet: standard input could not be read to its end, so there is no sheet\n",
        );
        return;
    };
    write_sheet_of(&rt, text);
}
