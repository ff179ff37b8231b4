// The lines of a sheet, written one after the other into a fixed room.
#![tactic(auto)]

ghost use Rattle.std.specs.Prelude.{◌≡◌, List, ◌∷◌, [], ℕ, ◌++◌, ◌≤◌, length};
ghost use Rattle.path_lists.specs.Bytes.{Holds};
ghost use Rattle.captures.specs.Text.{decimal};
ghost use Rattle.sheet_lines.specs.Lines.{field, ended, refused_line, report_line, path_lines, cut_lines};
ghost use Rattle.sheet_lines.specs.Room.{HasRoom, Printable};

mod lent;

use arrayvec::ArrayVec;
use captures::{LINE_FEED, TAB};
use itoa::Buffer;
use site::DIRECT_LINK;
use std::marker::Model;

// For a caller that has a buffer of its own.
pub use lent::{put_cut, put_paths, put_refused, put_report};

// No sheet is longer.
pub const SHEET_ROOM: usize = 512;

// A sheet as far as it is written, with room for N bytes. Contracts see its bytes.
#[derive(Drop)]
pub struct Sheet<const N: usize> {
    bytes: ArrayVec<u8, N>,
}

impl<const N: usize> Model for Sheet<N> {
    ghost Value = { List ℕ };

    ghost view = { λ sheet. sheet.bytes.items };
}

// What the first line of an accepted call's sheet tells. `all` says that as many paths were found as were wanted.
#[derive(Clone, Copy)]
pub struct Report {
    pub capture: usize,
    pub all: bool,
    pub paths: usize,
    pub rounds: usize,
    pub messages: usize,
}

impl<const N: usize> Sheet<N> {
    // Nothing is written yet.
    pub fn new() -> Self
        ensures { result ≡ [] }
    {
        Sheet {
            bytes: ArrayVec::new(),
        }
    }

    // What is written.
    pub fn as_bytes(&self) -> &[u8]
        ensures bytes { result.now ≡ self.now }
        ensures upper_bound { length result.now ≤ N }
    {
        self.bytes.as_slice()
    }

    // A word. There is room, so it is never refused.
    fn put(&mut self, word: &[u8])
        requires { HasRoom N self.old word.now }
        ensures { self.new ≡ self.old ++ word.now }
    {
        let _ = self.bytes.try_extend_from_slice(word);
    }

    // The end of a line.
    fn end_line(&mut self)
        requires { HasRoom N self.old (ended []) }
        ensures { self.new ≡ self.old ++ ended [] }
    {
        self.bytes.push(LINE_FEED);
    }

    // A field that is a word: with the tab before it that the first word of a line lacks.
    fn put_word(&mut self, word: &[u8])
        requires { HasRoom N self.old (field word.now) }
        ensures { self.new ≡ self.old ++ field word.now }
    {
        self.bytes.push(TAB);
        self.put(word);
    }

    // A field that is a number.
    #[tactic(auto, using(crate::proofs::Numbers::as_printed))]
    fn put_number(&mut self, number: usize)
        requires { HasRoom N self.old (field (decimal number)) }
        ensures { self.new ≡ self.old ++ field (decimal number) }
    {
        self.put_word(Buffer::new().format(number).as_bytes());
    }

    // The line of a refusal.
    #[tactic(auto, unfolding(crate::specs::Lines::refused_line))]
    pub fn put_refused(&mut self, number: usize, place: usize)
        requires { HasRoom N self.old (refused_line number place) }
        ensures { self.new ≡ self.old ++ refused_line number place }
    {
        self.put(b"refused");
        self.put_number(number);
        self.put_number(place);
        self.end_line();
    }

    // The first line of an accepted call's sheet.
    #[tactic(auto, unfolding(crate::specs::Lines::report_line))]
    pub fn put_report(&mut self, report: Report)
        requires { HasRoom N self.old (report_line report.capture report.all report.paths report.rounds report.messages []) }
        ensures { self.new ≡ self.old ++ report_line report.capture report.all report.paths report.rounds report.messages [] }
    {
        self.put(b"report");
        self.put_number(report.capture);
        if report.all {
            self.put_word(b"full");
        } else {
            self.put_word(b"short");
        }
        self.put_number(report.paths);
        self.put_number(report.rounds);
        self.put_number(report.messages);
        self.end_line();
    }

    // The line of one path.
    #[tactic(auto, unfolding(crate::specs::Lines::path_lines))]
    fn put_path(&mut self, number: usize, radios: &[u8])
        requires { HasRoom N self.old (path_lines number (radios.now ∷ []) []) }
        ensures { self.new ≡ self.old ++ path_lines number (radios.now ∷ []) [] }
    {
        self.put(b"path");
        self.put_number(number);
        for &radio in radios {
            self.put_number(radio as usize);
        }
        self.end_line();
    }

    // The lines of the first `count` paths of a path list.
    pub fn put_paths(&mut self, list: &[u8], count: usize)
        requires { Printable N self.old list.now count }
        ensures { (paths : List (List ℕ)) → Holds list.now count paths → self.new ≡ self.old ++ path_lines 1 paths [] }
    {
        let mut place = 0;
        // By number, which stands on the line; where the next path stands the one before says.
        for i in 0..count {
            let path = path_lists::path_at(list, place);
            self.put_path(i + 1, path);
            place += 1 + path.len();
        }
    }

    // The line of one cut item: its radio, or the word for the direct link.
    #[tactic(auto, unfolding(crate::specs::Lines::cut_lines))]
    fn put_item(&mut self, number: usize, item: u8)
        requires { HasRoom N self.old (cut_lines number (item ∷ [])) }
        ensures { self.new ≡ self.old ++ cut_lines number (item ∷ []) }
    {
        self.put(b"cut");
        self.put_number(number);
        if item == DIRECT_LINK {
            self.put_word(b"link");
        } else {
            self.put_number(item as usize);
        }
        self.end_line();
    }

    // The lines of a cut list.
    pub fn put_cut(&mut self, items: &[u8])
        requires { HasRoom N self.old (cut_lines 1 items.now) }
        ensures { self.new ≡ self.old ++ cut_lines 1 items.now }
    {
        for (i, &item) in items.iter().enumerate() {
            self.put_item(i + 1, item);
        }
    }
}
