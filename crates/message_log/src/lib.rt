// The log: four bytes a message, written and read here alone. A message is told by its number, in every promise too, so that the log
// goes with a number and has no end of its own.
#![tactic(auto)]

ghost use Rattle.std.specs.Prelude.{◌≡◌, suc, eqb};
ghost use Rattle.tokens.specs.declared.Kind.TheVariants.{Done};
ghost use Rattle.message_log.specs.Bytes.{kind_number, RoomFor};
ghost use Rattle.message_log.specs.Put.{Writable, Appends};
ghost use Rattle.message_log.specs.Read.{raw_at};

use tokens::{Kind, Message};

// The log takes so many bytes a message.
pub const MESSAGE_BYTES: usize = 4;

// A message as its bytes stand in the log. The kind is a byte: a log from elsewhere may hold any.
#[derive(Clone, Copy, Debug, PartialEq, Eq)]
pub struct RawMessage {
    pub kind: u8,
    pub round: u8,
    pub from: u8,
    pub to: u8,
}

impl RawMessage {
    // Is it a DONE?
    pub fn is_done(self) -> bool
        ensures { result ≡ eqb self.kind (kind_number Done) }
    {
        self.kind == Kind::Done as u8
    }
}

// Writes message number `at` of the log: its kind, its round and its two ends. The other bytes stay.
pub fn put(log: &mut [u8], at: usize, message: Message, round: usize)
    requires { Writable log.old at message round }
    ensures { Appends at (record { message = message; round = round }) log.old log.new }
{
    // One store a byte: copying an array of the four takes eight instructions more.
    let place = MESSAGE_BYTES * at;
    log[place] = message.kind as u8;
    log[place + 1] = round as u8;
    log[place + 2] = message.from as u8;
    log[place + 3] = message.to as u8;
}

// Reads message number `at` of the log. A pattern over a slice of four bytes would need an arm for other lengths.
pub fn message_at(log: &[u8], at: usize) -> RawMessage
    requires { RoomFor (suc at) log.now }
    ensures { result ≡ raw_at log.now at }
{
    let place = MESSAGE_BYTES * at;
    RawMessage {
        kind: log[place],
        round: log[place + 1],
        from: log[place + 2],
        to: log[place + 3],
    }
}
