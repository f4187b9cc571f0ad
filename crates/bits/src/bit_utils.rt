//! One bit of a word: read, set, cleared; and the places of all one bits.
ghost use Rattle.std.specs.Prelude.{◌≡◌, ℕ, ◌-◌, ◌<◌, max, ◌==◌, length};
ghost use Rattle.std.specs.Iterator.{at_most};
ghost use Rattle.bits.specs.Bit.{bit, Popped};
ghost use Rattle.bits.specs.Places.{places, Taken};
ghost use Rattle.bits.specs.Sums.{same};

use super::bit_queue::pop_front;

/// Whether bit k of the word is 1.
pub fn get_bit(word: u64, k: usize) -> bool
    requires { k < 64 }
    ensures { result ≡ (bit word k == 1) }
{
    (word >> k) % 2 == 1
}

/// The word with bit k at 1. Beside `clear_bit`, and not one function with a const flag: neither contract has cases.
pub fn set_bit(word: u64, k: usize) -> u64
    requires { k < 64 }
    ensures { (a : ℕ) → bit result a ≡ max (bit word a) (same a k) }
{
    word | (1 << k)
}

/// The word with bit k at 0.
pub fn clear_bit(word: u64, k: usize) -> u64
    requires { k < 64 }
    ensures { (a : ℕ) → bit result a ≡ bit word a - same a k }
{
    word & !(1 << k)
}

/// The places of a word's one bits, the lowest first.
#[derive(Clone, Copy)]
pub struct OneBitsIter {
    word: u64,
}

/// The places of the one bits of a word.
pub fn one_bits_iter(word: u64) -> OneBitsIter
    ensures { result.word ≡ word }
{
    OneBitsIter { word }
}

impl Iterator for OneBitsIter {
    type Item = usize;

    ghost next_gives = { λ s r t. Popped s.word r t.word × Taken (places s.word) r (places t.word) };

    ghost remaining = { λ s. at_most (length (places s.word)) };

    fn next(&mut self) -> Option<usize> {
        pop_front(&mut self.word)
    }
}
