// The two passes over the text of a capture: the shape of its lines, then what they say and its table.
#![tactic(auto)]

ghost use Rattle.std.specs.Prelude.{◌≡◌, ◌+◌, ◌*◌, ◌≤◌, ◌<◌, replicate};
ghost use Rattle.site.specs.Limits.{most_radios};
ghost use Rattle.captures.specs.Words.{line_feed};
ghost use Rattle.captures.specs.Text.{pieces};
ghost use Rattle.captures.specs.Capture.{right_shape, wrong_line};
ghost use Rattle.texts.specs.Table.{Marked, Added, LinesRead};

use captures::Line;
use std::marker::Model;

// Has the line the shape that its number asks for?
fn is_right(number: usize, line: &[u8]) -> bool
    ensures { result ≡ right_shape number line.now }
{
    if number == 1 {
        captures::head_of(line).is_some()
    } else {
        captures::line_of(line).is_some()
    }
}

// Refusal 9: the number of the first line of the wrong shape. Its loop and that of `fill` share their reader and no more: what a line
// does, where the count begins and what the end means differ.
pub fn first_wrong(text: &[u8]) -> Option<usize>
    ensures { result ≡ wrong_line 1 (pieces line_feed text.now) }
{
    let mut number = 1;
    let mut left = text;
    while let Some((line, rest)) = captures::split_at_first(left, captures::LINE_FEED) {
        if !is_right(number, line) {
            return Some(number);
        }
        number += 1;
        left = rest;
    }
    if left.is_empty() && number != 1 {
        return None;
    }
    Some(number)
}

// The cells of the largest table.
const CELLS: usize = site::MOST_RADIOS * site::MOST_RADIOS;

// The table of a map of n radios, which its lines fill: it has n rows of n cells, one after another.
#[derive(Drop)]
pub struct Table {
    n: usize,
    cells: [u8; CELLS],
}

impl Model for Table {
    ghost use Rattle.std.specs.Prelude.{◌*◌, ◌≤◌, take};
    ghost use Rattle.site.specs.Limits.{most_radios};
    ghost use Rattle.texts.specs.Table.{TableCells};

    ghost Value = { TableCells };

    ghost view = { λ t. record { n = t.n; cells = take (t.n * t.n) t.cells } };

    ghost invariant = { λ t. t.n ≤ most_radios };
}

impl Table {
    // No line has filled it. From here on the type says the bound of n.
    pub fn empty(n: usize) -> Table
        requires { n ≤ most_radios }
        ensures { result ≡ record { n = n; cells = replicate (n * n) 0 } }
    {
        Table {
            n,
            cells: [0; CELLS],
        }
    }

    // Its cells, row after row.
    pub fn cells(&self) -> &[u8]
        ensures { result.now ≡ self.now.cells }
    {
        &self.cells[..self.n * self.n]
    }

    // Both cells of two radios become 1, and that is told; unless they were 1 before.
    fn mark(&mut self, u: usize, v: usize) -> bool
        requires { (u < self.old.n) × (v < self.old.n) }
        ensures { (self.new.n ≡ self.old.n) × Marked self.old.n u v self.old.cells self.new.cells result }
    {
        let cell = site::place(self.n, u, v);
        if self.cells[cell] == 1 {
            return false;
        }
        let mirror = site::place(self.n, v, u);
        self.cells[cell] = 1;
        self.cells[mirror] = 1;
        true
    }

    // What a line says joins the table and is told to be good; where it is at fault the table stays as it was. No link fills a
    // cell on the diagonal, so a handheld was named before exactly if its own cell is 1.
    fn add_line(&mut self, line: Option<Line>) -> bool
        ensures { (self.new.n ≡ self.old.n) × Added self.old.n self.old.cells line self.new.cells result }
    {
        match line {
            Some(Line::Link(u, v)) => u < v && v < self.n && self.mark(u, v),
            Some(Line::Hand(v)) => v < self.n && self.mark(v, v),
            None => true,
        }
    }

    // Refusal 11: the number of the first line at fault, of lines of which the first is line 2. The table is left with all of
    // them, or with those before the one at fault.
    pub fn fill(&mut self, lines: &[u8]) -> Option<usize>
        ensures { (self.new.n ≡ self.old.n) × LinesRead lines.now self.old.n self.new.cells result }
    {
        self.cells.fill(0);
        let mut number = 2;
        let mut left = lines;
        while let Some((line, rest)) = captures::split_at_first(left, captures::LINE_FEED) {
            if !self.add_line(captures::line_of(line)) {
                return Some(number);
            }
            number += 1;
            left = rest;
        }
        None
    }
}
