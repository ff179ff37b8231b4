// Sets of radios. A radio is a number below 64, and stays a plain number, since it comes as a byte of a list and as an index of a table.
#![tactic(auto)]

ghost use Rattle.std.specs.Prelude.{◌≡◌, not, cond, ◌&&◌, ◌||◌, ℕ, ◌+◌, ◌-◌, ◌*◌, ◌^◌, ◌≤◌, ◌<◌, eqb, ltb, leb, length, IfSome, IfNone};
ghost use Rattle.basics.specs.Counting.{First, count};
ghost use Rattle.radios.specs.Bytes.{Bits, is_one, spaced};
ghost use Rattle.radios.specs.Member.{member, or_64};

use std::marker::Model;

// What the second, the third and the fourth byte of a number count for.
const SECOND_BYTE: u64 = 256;

const THIRD_BYTE: u64 = 65536;

const FOURTH_BYTE: u64 = 16777216;

// Half a byte on there is room for four more bytes between four.
const HALF_BYTE: u64 = 16;

// 2^24 + 2^17 + 2^10 + 2^3: times this, digits that stand a byte apart come side by side, from digit 24 on.
const SIDE_BY_SIDE: u64 = 16909320;

// Four bytes as one number, which takes one load. The library makes it of an array, which would be taken from these places byte by
// byte too.
fn four(bytes: &[u8], at: usize) -> u64
    requires bits { Bits bytes.now }
    requires at_in_bounds { at + 4 ≤ length bytes.now }
    ensures { result ≡ spaced bytes.now at }
{
    bytes[at] as u64
        + SECOND_BYTE * bytes[at + 1] as u64
        + THIRD_BYTE * bytes[at + 2] as u64
        + FOURTH_BYTE * bytes[at + 3] as u64
}

// A set of radios. Its binary digit i says whether radio i is in it; to its users it is that number, of which they ask `member`.
#[derive(Clone, Copy, PartialEq, Eq)]
pub struct Radios {
    bits: u64,
}

impl Model for Radios {
    ghost Value = { ℕ };

    ghost view = { λ set. set.bits };

    ghost inverse = { λ bits. record { bits = bits } };

    ghost invariant = { λ set. set.bits < 2 ^ 64 };
}

impl Radios {
    // The set that a number tells.
    pub fn of_bits(bits: u64) -> Self
        ensures { result ≡ bits }
    {
        Radios { bits }
    }

    // The empty set.
    pub fn none() -> Self
        ensures { result ≡ 0 }
    {
        Radios::of_bits(0)
    }

    // The number that tells the set. Its type bounds it, so this call tells the bound of any set.
    pub fn bits(self) -> u64
        ensures { result ≡ self }
    {
        self.bits
    }

    // Is radio i in the set?
    pub fn has(self, i: usize) -> bool
        requires { i < 64 }
        ensures { result ≡ member i self }
    {
        (self.bits >> i) & 1 == 1
    }

    // The set with radio i besides.
    pub fn with(self, i: usize) -> Self
        requires { i < 64 }
        ensures { (j : ℕ) → member j result ≡ (eqb j i || member j self) }
    {
        Radios {
            bits: (1u64 << i) | self.bits,
        }
    }

    // The set less radio i.
    pub fn without(self, i: usize) -> Self
        requires { i < 64 }
        ensures { (j : ℕ) → member j result ≡ (not (eqb j i) && member j self) }
    {
        Radios {
            bits: self.bits & !(1u64 << i),
        }
    }

    // The set with radio i in it if it was not, and without it if it was.
    pub fn flip(self, i: usize) -> Self
        requires { i < 64 }
        ensures { (j : ℕ) → member j result ≡ cond (eqb j i) (not (member j self)) (member j self) }
    {
        Radios {
            bits: self.bits ^ (1u64 << i),
        }
    }

    // Is no radio in the set? Plainer to its callers than a comparison with the empty one.
    pub fn is_empty(self) -> bool
        ensures { result ≡ eqb self 0 }
    {
        self.bits == 0
    }

    // The radios of both sets.
    pub fn both(self, other: Radios) -> Self
        ensures { (j : ℕ) → member j result ≡ (member j self || member j other) }
    {
        Radios {
            bits: self.bits | other.bits,
        }
    }

    // The radios that are not in the other set.
    pub fn and_not(self, other: Radios) -> Self
        ensures { (j : ℕ) → member j result ≡ (member j self && not (member j other)) }
    {
        Radios {
            bits: self.bits & !other.bits,
        }
    }

    // The first radio of the set; none where it is empty.
    pub fn first(self) -> Option<usize>
        ensures is_first { First (λ j. member j self) 0 64 (or_64 result) }
        ensures below { IfSome result (λ v. v < 64) }
        ensures empty { IfNone result (self ≡ 0) }
    {
        if self.is_empty() {
            return None;
        }
        Some(self.bits.trailing_zeros() as usize)
    }

    // The radios of the set that are i or more.
    pub fn from(self, i: usize) -> Self
        requires { i < 64 }
        ensures { (j : ℕ) → member j result ≡ (not (ltb j i) && member j self) }
    {
        Radios {
            bits: (self.bits >> i) << i,
        }
    }

    // The set with every radio raised by i.
    pub fn raised(self, i: usize) -> Self
        requires i_bound { i < 64 }
        requires fits { self * 2 ^ i < 2 ^ 64 }
        ensures { (j : ℕ) → member j result ≡ (leb i j && member (j - i) self) }
    {
        Radios {
            bits: self.bits << i,
        }
    }

    // The first radio of the set that is i or more. No u64 can be shifted by 64, so that i goes apart.
    pub fn first_from(self, i: usize) -> Option<usize>
        requires { i ≤ 64 }
        ensures is_first { First (λ j. member j self) i 64 (or_64 result) }
        ensures below { IfSome result (λ v. v < 64) }
    {
        if i == 64 {
            return None;
        }
        self.from(i).first()
    }

    // The set less its first radio, which is v.
    pub fn without_first(self, v: usize) -> Self
        requires { First (λ j. member j self) 0 64 v × (v < 64) }
        ensures { (j : ℕ) → member j result ≡ (not (eqb j v) && member j self) }
    {
        Radios {
            bits: self.bits & (self.bits - 1),
        }
    }

    // How many radios are in the set.
    pub fn count(self) -> usize
        ensures { result ≡ count (λ j. member j self) 64 }
    {
        self.bits.count_ones() as usize
    }

    // The radios below 8 whose byte, from the place on, is 1. Every byte is 0 or 1. A place, so that eight cells need no slice of
    // their own.
    pub fn of_eight(bytes: &[u8], at: usize) -> Self
        requires bits { Bits bytes.now }
        requires at_in_bounds { at + 8 ≤ length bytes.now }
        ensures upper_bound { result < 256 }
        ensures by_index { (j : ℕ) → member j result ≡ (ltb j 8 && is_one bytes.now (at + j)) }
    {
        let both_fours = four(bytes, at) + HALF_BYTE * four(bytes, at + 4);
        Radios {
            bits: both_fours * SIDE_BY_SIDE / FOURTH_BYTE % SECOND_BYTE,
        }
    }
}
