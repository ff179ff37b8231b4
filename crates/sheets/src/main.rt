// Writes the sheet of each sample that its arguments name, under the sample's name. The gate runs it.
#![tactic(auto)]

use std::env::{Env, FillError};
use std::fs::File;
use std::io;
use std::io::Write;
use streams::{put, put_shown, read_full};

// As the program `sheet` reads: one byte more than a text may have.
const TEXT_BYTES: usize = text_survey::MOST_BYTES + 1;
// Room for any path.
const NAME_BYTES: usize = 4096;
// More than the words of any error of the system take.
const WORDS_BYTES: usize = 256;
// What every byte holds before a call: a byte that the call forgets shows. `edges` has it too: a crate for one byte is no plainer.
const OLD_BYTE: u8 = 0xAA;

// As in `sheet`, which says when it cannot write; here what cannot be written is left out.
fn write_sheet_of(out: &impl Print, text: &[u8]) {
    let mut sheet = [OLD_BYTE; sheet_text::SHEET_ROOM];
    let written = sheet_text::write_sheet(text, &mut sheet);
    put(out, &sheet[..written]);
}

// The system's words alone, without the number that stands behind them.
fn words_of(told: &[u8]) -> &[u8] {
    let number = b" (os error ".as_slice();
    let length = told
        .iter()
        .position(|byte| *byte == 0)
        .unwrap_or(told.len());
    let told = &told[..length];
    let length = told
        .windows(number.len())
        .position(|part| part == number)
        .unwrap_or(told.len());
    &told[..length]
}

// A line on standard error: the name, a colon, and why it cannot be opened.
fn fail(rt: &HostRuntime, name: &[u8], error: &io::Error) {
    let err = rt.stderr();
    let mut told = io::Cursor::new([0u8; WORDS_BYTES]);
    let _ = write!(told, "{error}");
    put(&err, name);
    put_shown(&err, ": ");
    put(&err, words_of(&told.into_inner()));
    put_shown(&err, "\n");
}

// A path is text.
fn open(rt: &HostRuntime, name: &[u8]) -> io::Result<File> {
    let path = str::from_utf8(name).map_err(|_| io::Error::new(
        io::ErrorKind::InvalidInput,
        "the name is not UTF-8",
    ))?;
    File::open(rt, path)
}

// Where a file cannot be opened it has no sheet; one that cannot be read ends it all.
fn read_and_write(rt: &HostRuntime, name: &[u8]) -> io::Result<()> {
    let mut file = match open(rt, name) {
        Ok(file) => file,
        Err(error) => {
            fail(rt, name, &error);
            return Ok(());
        }
    };
    let mut text = [OLD_BYTE; TEXT_BYTES];
    let length = read_full(&mut file, &mut text)?;
    write_sheet_of(rt, &text[..length]);
    Ok(())
}

// What argument i says, if there is one. What finds no room is read as an empty name.
fn name_at<'a>(rt: &HostRuntime, i: usize, room: &'a mut [u8]) -> Option<&'a [u8]> {
    match rt.arg(i, room) {
        Ok(length) => Some(&room[..length]),
        Err(FillError::TooLong) => Some(&[]),
        Err(FillError::NotPresent) => None,
    }
}

fn main(rt: HostRuntime) -> io::Result<()> {
    let mut room = [0u8; NAME_BYTES];
    // By number: so the library hands out arguments without memory of its own.
    for i in 1..usize::MAX {
        let Some(name) = name_at(&rt, i, &mut room) else {
            break;
        };
        put(&rt, name);
        put_shown(&rt, "\n");
        read_and_write(&rt, name)?;
    }
    Ok(())
}
