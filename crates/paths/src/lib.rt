// The path list that a run leaves: the paths that DONE walked, read off the log.
#![tactic(auto)]

ghost use Rattle.std.specs.Prelude.{List, ◌≤◌};
ghost use Rattle.site.specs.Map.{Site};
ghost use Rattle.tokens.specs.Run.{Entry};
ghost use Rattle.message_log.specs.Bytes.{RoomFor};
ghost use Rattle.paths.specs.Listing.{LogOf, Listable, PathsLeft, FirstDone, NextArrival, Startable, WalkEnded};

// How far the writer of one path came: the first message after the path that reaches a radio, and the bytes that the path took of the
// rest of the list that it was lent.
#[derive(Clone, Copy)]
struct Walk {
    next: Option<usize>,
    used: usize,
}

// What the path list holds: its used bytes, and the number of paths. Numbers, since the rest of the lent list begins there.
#[derive(Clone, Copy)]
pub struct Listed {
    pub used: usize,
    pub paths: usize,
}

// The messages at the front of a log, and the radio that is S.
#[derive(Clone, Copy)]
struct Told<'a> {
    log: &'a [u8],
    messages: usize,
    s: usize,
    ghost room: { RoomFor messages log.now },
}

impl<'a> Told<'a> {
    // Where the DONEs that end the log begin: so many messages stand before them. They are few, so it is sought from the end.
    fn first_done(self) -> usize
        ensures { FirstDone self.entry.log.now self.entry.messages result }
    {
        for at in (0..self.messages).rev() {
            if !message_log::message_at(self.log, at).is_done() {
                return at + 1;
            }
        }
        0
    }

    // The first message from this number on that is a DONE to an in half, if there is one. A DONE to an out half stays within
    // its radio.
    fn next_arrival(self, from: usize) -> Option<usize>
        requires { from ≤ self.messages }
        ensures { NextArrival self.entry.log.now from self.entry.messages result }
    {
        (from..self.messages).find(|&at| {
            let heard = message_log::message_at(self.log, at);
            heard.is_done() && heard.to % 2 == 0
        })
    }

    // Writes the path that S starts with message number `at` to the front of `rest`: its number of radios, and then the radios,
    // S, the one that the message goes to, and those that the later DONEs reach until S sends the next one.
    fn write_path(self, rest: &mut [u8], at: usize) -> Walk
        requires { Startable self.log.now at self.messages self.s rest.old }
        ensures { WalkEnded self.entry.log.now at self.entry.messages self.entry.s rest.old rest.new result }
    {
        let first = message_log::message_at(self.log, at);
        rest[1] = self.s as u8;
        rest[2] = first.to / 2;
        let mut used = 3;
        let mut next = self.next_arrival(at + 1);
        while let Some(at) = next {
            let heard = message_log::message_at(self.log, at);
            if heard.from as usize == 2 * self.s + 1 {
                break;
            }
            rest[used] = heard.to / 2;
            used += 1;
            next = self.next_arrival(at + 1);
        }
        rest[0] = (used - 1) as u8;
        Walk { next, used }
    }
}

// Lists the paths that DONE walked, as the log's first messages tell them: for each its number of radios, and then the
// radios, each path in the part of the list that begins after the last one. The bytes after the paths stay.
pub fn write_paths(log: &[u8], messages: usize, s: usize, paths: &mut [u8]) -> Listed
    requires { Listable log.now messages s paths.old }
    ensures { (site : Site) (entries : List Entry) → LogOf log.now messages s site entries → PathsLeft site entries paths.old paths.new result }
{
    let told = Told { log, messages, s };
    let mut used = 0;
    let mut count = 0;
    // All DONEs stand at the log's end.
    let mut next = told.next_arrival(told.first_done());
    while let Some(at) = next {
        let heard = message_log::message_at(log, at);
        // Before S sends its first DONE no path is under way.
        if heard.from as usize != 2 * s + 1 {
            next = told.next_arrival(at + 1);
            continue;
        }
        let walk = told.write_path(&mut paths[used..], at);
        used += walk.used;
        count += 1;
        next = walk.next;
    }
    Listed { used, paths: count }
}
