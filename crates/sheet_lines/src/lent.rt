// The lines of a sheet in a buffer of the caller's own, which may be of any length and have other bytes around them. They stand
// beside the type `Sheet`, whose room is a constant: each line is written on a sheet of its own, by the type's methods, and then
// copied to its place.

ghost use Rattle.std.specs.Prelude.{◌≡◌, List, [], ℕ, ◌+◌, ◌≤◌, length, take};
ghost use Rattle.path_lists.specs.Bytes.{Holds};
ghost use Rattle.sheet_lines.specs.Lines.{refused_line, report_line, path_lines, cut_lines};
ghost use Rattle.sheet_lines.specs.Written.{Written, PrintableAt};

use crate::{Report, Sheet};

// The room for the line of a refusal, whose two numbers have 20 digits at most.
const REFUSED_ROOM: usize = 50;

// The room for a report: it has four such numbers and a word.
const REPORT_ROOM: usize = 97;

// The room for the line of a path, which in a list has at most 255 radios of three digits at most.
const PATH_ROOM: usize = 1046;

// The room for the line of a cut item.
const ITEM_ROOM: usize = 30;

// What is written on a sheet, copied into the buffer from `at` on; the answer is the place after it.
fn copy_sheet<const N: usize>(out: &mut [u8], at: usize, sheet: &Sheet<N>) -> usize
    requires { at + length sheet.now ≤ length out.old }
    ensures { Written out.old out.new at sheet.now result }
{
    let bytes = sheet.as_bytes();
    let next = at + bytes.len();
    out[at..next].copy_from_slice(bytes);
    next
}

// The line of a refusal.
pub fn put_refused(out: &mut [u8], at: usize, number: usize, place: usize) -> usize
    requires { at + length (refused_line number place) ≤ length out.old }
    ensures { Written out.old out.new at (refused_line number place) result }
{
    let mut refusal: Sheet<REFUSED_ROOM> = Sheet::new();
    refusal.put_refused(number, place);
    copy_sheet(out, at, &refusal)
}

// The first line of an accepted call's sheet. `all` says that as many paths were found as were wanted.
pub fn put_report(
    out: &mut [u8],
    at: usize,
    capture: usize,
    all: bool,
    paths: usize,
    rounds: usize,
    messages: usize,
) -> usize
    requires { at + length (report_line capture all paths rounds messages []) ≤ length out.old }
    ensures { Written out.old out.new at (report_line capture all paths rounds messages []) result }
{
    let mut report: Sheet<REPORT_ROOM> = Sheet::new();
    report.put_report(Report {
        capture,
        all,
        paths,
        rounds,
        messages,
    });
    copy_sheet(out, at, &report)
}

// The lines of the first `count` paths of a path list.
pub fn put_paths(out: &mut [u8], at: usize, list: &[u8], count: usize) -> usize
    requires { PrintableAt out.old at list.now count }
    ensures { (paths : List (List ℕ)) → Holds list.now count paths → Written out.old out.new at (path_lines 1 paths []) result }
{
    let mut next = at;
    let mut place = 0;
    // By number, as in the method of this name.
    for i in 0..count {
        let path = path_lists::path_at(list, place);
        let mut path_line: Sheet<PATH_ROOM> = Sheet::new();
        path_line.put_path(i + 1, path);
        next = copy_sheet(out, next, &path_line);
        place += 1 + path.len();
    }
    next
}

// The lines of the first `count` items of a cut list.
pub fn put_cut(out: &mut [u8], at: usize, items: &[u8], count: usize) -> usize
    requires count_in_bounds { count ≤ length items.now }
    requires in_bounds { at + length (cut_lines 1 (take count items.now)) ≤ length out.old }
    ensures { Written out.old out.new at (cut_lines 1 (take count items.now)) result }
{
    let mut next = at;
    for (i, &item) in items[..count].iter().enumerate() {
        let mut item_line: Sheet<ITEM_ROOM> = Sheet::new();
        item_line.put_item(i + 1, item);
        next = copy_sheet(out, next, &item_line);
    }
    next
}
