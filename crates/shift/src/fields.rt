// The fields of a line, and the numbers in them.
ghost use Rattle.std.specs.Prelude.{◌≡◌, ℕ, suc, ◌<◌, ◌≤◌, [], ◌∷◌, length, MatchResult, ◌≢◌, slice_index};
ghost use Rattle.shift.specs.Fields.{Amiss, Begins, Lists, Next, space};
ghost use Rattle.shift.specs.Numbers.{Unfit, Writes};

use crate::Expected;

// How many digits a number may have.
const MOST_DIGITS: usize = 20;

// Where the first field of `text` ends: at the first space, or at the end.
fn field_end(text: &[u8]) -> usize
    ensures within { result ≤ length text.now }
    ensures before { (k : ℕ) → k < result → slice_index text.now k ≢ space }
    ensures at { result < length text.now → slice_index text.now result ≡ space }
{
    text.iter().position(|b| *b == b' ').unwrap_or(text.len())
}

// The first field of `text`, and what comes after it.
pub fn first_field(text: &[u8]) -> (&[u8], &[u8])
    ensures { Begins text.now result.0.now result.1.now }
{
    text.split_at(field_end(text))
}

// The number that a whole field writes. So few digits fit 128 bits.
fn number(field: &[u8]) -> Result<u64, Expected>
    ensures { MatchResult result (λ n. Writes field.now n) (λ e. Unfit field.now e) }
{
    if field.is_empty() || field.len() > MOST_DIGITS {
        return Err(Expected::Number);
    }
    let mut n: u128 = 0;
    for b in field {
        if !b.is_ascii_digit() {
            return Err(Expected::Number);
        }
        n = n * 10 + u128::from(*b - b'0');
    }
    u64::try_from(n).map_err(|_| Expected::TooLarge)
}

// The number in the field after the space that `text` begins with, and what comes after it.
fn next_number(text: &[u8]) -> Result<(u64, &[u8]), Expected>
    ensures { MatchResult result (λ x. Next text.now x.0 x.1.now) (λ e. (k : ℕ) → Amiss (suc k) text.now e) }
{
    let [b' ', after @ ..] = text else {
        return Err(Expected::Number);
    };
    let (field, rest) = first_field(after);
    Ok((number(field)?, rest))
}

// The one number that `text` lists.
pub fn one_number(text: &[u8]) -> Result<u64, Expected>
    ensures { MatchResult result (λ n. Lists (n ∷ []) text.now) (λ e. Amiss 1 text.now e) }
{
    let (n, rest) = next_number(text)?;
    if rest.is_empty() {
        Ok(n)
    } else {
        Err(Expected::End)
    }
}

// The two numbers that `text` lists.
pub fn two_numbers(text: &[u8]) -> Result<(u64, u64), Expected>
    ensures { MatchResult result (λ x. Lists (x.0 ∷ (x.1 ∷ [])) text.now) (λ e. Amiss 2 text.now e) }
{
    let (n, rest) = next_number(text)?;
    Ok((n, one_number(rest)?))
}
