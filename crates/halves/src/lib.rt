// The halves of a map that are entered: these methods alone know how they are kept.
#![tactic(auto)]

ghost use Rattle.std.specs.Prelude.{◌≡◌, ◌||◌, ◌*◌, ◌<◌, eqb, length, replicate};
ghost use Rattle.site.specs.Limits.{most_radios};
ghost use Rattle.halves.specs.Bytes.{entered_of};

use std::marker::Model;

// A byte for each half: 1 if it is entered.
#[derive(Drop)]
pub struct Entered {
    bytes: [u8; 128],
}

impl Model for Entered {
    ghost use Rattle.std.specs.Prelude.{List, ℕ};

    ghost Value = { List ℕ };

    ghost view = { λ e. e.bytes };
}

// A half is made from a radio's number and goes as an index, so it is a plain number, and each clause says its bound.
impl Entered {
    // The halves whose byte is 1.
    pub fn of_bytes(bytes: [u8; 128]) -> Entered
        ensures { result ≡ bytes }
    {
        Entered { bytes }
    }

    // No half is entered.
    pub fn none() -> Entered
        ensures { result ≡ replicate 128 0 }
    {
        Entered::of_bytes([0; 128])
    }

    // The bytes, as `of_bytes` took them: 1 for each half that is entered.
    pub fn bytes(&self) -> &[u8; 128]
        ensures all_bytes { length result.now ≡ 128 }
        ensures same { result.now ≡ self.now }
    {
        &self.bytes
    }

    // Has half h been entered?
    pub fn is_entered(&self, h: usize) -> bool
        requires { h < 2 * most_radios }
        ensures { result ≡ entered_of self.now h }
    {
        self.bytes[h] == 1
    }

    // Half h is entered.
    pub fn enter(&mut self, h: usize)
        requires { h < 2 * most_radios }
        ensures all_bytes { length self.new ≡ 128 }
        ensures by_half { entered_of self.new ≡ (λ x. eqb x h || entered_of self.old x) }
    {
        self.bytes[h] = 1;
    }

    // No half is entered but h.
    pub fn enter_only(&mut self, h: usize)
        requires { h < 2 * most_radios }
        ensures all_bytes { length self.new ≡ 128 }
        ensures by_half { entered_of self.new ≡ (λ x. eqb x h) }
    {
        self.bytes.fill(0);
        self.bytes[h] = 1;
    }
}
