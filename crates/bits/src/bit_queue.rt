//! A word as a queue of the places of its one bits, the lowest first.
ghost use Rattle.std.specs.Prelude.{◌≡◌, ℕ, ◌<◌, ◌≤◌};
ghost use Rattle.bits.specs.Bit.{bit, cut, Popped};
ghost use Rattle.bits.specs.Places.{places, Taken};

/// Hands out the place of the lowest one bit and clears that bit; nothing comes from the zero word alone.
pub fn pop_front(word: &mut u64) -> Option<usize>
    ensures bits { Popped word.old result word.new }
    ensures list { Taken (places word.old) result (places word.new) }
{
    if *word == 0 {
        return None;
    }
    let k = word.trailing_zeros() as usize;
    *word &= *word - 1;
    Some(k)
}

/// The word without its bits below n; an n of 64 or more leaves none.
pub fn zero_first_n(word: u64, n: usize) -> u64
    ensures value { result ≡ cut n word }
    ensures below { (k : ℕ) → k < n → bit result k ≡ 0 }
    ensures above { (k : ℕ) → n ≤ k → bit result k ≡ bit word k }
{
    if n < 64 { word & (u64::MAX << n) } else { 0 }
}
