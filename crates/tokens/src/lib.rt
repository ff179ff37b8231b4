// The messages of the token rules, and what one inner step of the machine answers.
#![tactic(auto)]

ghost use Rattle.std.specs.Prelude.{◌≡◌};
ghost use Rattle.tokens.specs.Rules.{message};

// The four kinds of message, each with its number in the log.
#[derive(Clone, Copy, Debug, PartialEq, Eq)]
pub enum Kind {
    Pdt = 1,
    PdtB = 2,
    Pmt = 3,
    Done = 4,
}

// A message with its two ends: the half that sends it and the half that receives it.
#[derive(Clone, Copy, Debug, PartialEq, Eq)]
pub struct Message {
    pub kind: Kind,
    pub from: usize,
    pub to: usize,
}

impl Message {
    // A message of this kind from one half to another.
    pub fn new(kind: Kind, from: usize, to: usize) -> Message
        ensures { result ≡ message kind from to }
    {
        Message { kind, from, to }
    }
}

// One inner step sends a message, or finds that the run is over. It is no Option: the rules name the two answers of a step.
#[derive(Clone, Copy, Debug, PartialEq, Eq)]
pub enum Answer {
    Sent(Message),
    End,
}
