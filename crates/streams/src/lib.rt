// What the programs write and read by.
#![tactic(auto)]

ghost use Rattle.std.specs.Prelude.{IfOk};
ghost use Rattle.streams.specs.Counts.{BringsAll};

use std::fmt::Display;
use std::io;
use std::io::Read;

// What cannot be written is left out. The bytes need not be text.
pub fn put(out: &impl Print, bytes: &[u8]) {
    let _ = out.write_all(bytes);
}

// The same of what has a text of its own.
pub fn put_shown<D: Display + Drop>(out: &impl Print, shown: D) {
    let _ = out.print(shown);
}

// Reads until the input ends or the buffer is full, and tells how many bytes there are. A read that fails is the answer.
pub fn read_full<R: Read>(input: &mut R, buffer: &mut [u8]) -> io::Result<usize>
    ensures { IfOk result (λ count. BringsAll (R.remaining input.old) (R.remaining input.new) count buffer.new) }
{
    let mut done = 0;
    // A loop, as `read_exact` does not tell how much came before the end.
    while done < buffer.len() {
        let more = input.read(&mut buffer[done..])?;
        if more == 0 {
            break;
        }
        done += more;
    }
    Ok(done)
}
