//! What the set answers by: the refusals and, in specs/, the roll of members.
#![tactic(auto)]

ghost use Rattle.std.specs.Prelude.{◌≡◌, Some, codes};
ghost use Rattle.roll.specs.Refusals.{number, phrase, code_of, Names};

use std::error::Error;
use std::fmt;

/// Why a call is refused. A refused call changes nothing.
#[derive(Clone, Copy, PartialEq, Eq, Debug)]
pub enum Refusal {
    /// An index of 262,144 or more, or a block that starts at 262,080 or later.
    OutOfRange,
    /// A block whose start is no multiple of 64.
    OffBoundary,
    /// More nonempty groups than the level-1 pool has slots.
    GroupsFull,
    /// More nonempty blocks than the data pool has slots.
    BlocksFull,
    /// A slice with no element cannot be a pool.
    NoElement,
}

impl Refusal {
    /// The number that a user is told.
    pub fn number(&self) -> u8
        ensures { result ≡ number self.now }
    {
        match *self {
            Refusal::OutOfRange => 1,
            Refusal::OffBoundary => 2,
            Refusal::GroupsFull => 3,
            Refusal::BlocksFull => 4,
            Refusal::NoElement => 5,
        }
    }

    /// The refusal in words.
    pub fn message(&self) -> &'static str
        ensures { result.now ≡ phrase self.now }
    {
        match *self {
            Refusal::OutOfRange => "index or start out of range",
            Refusal::OffBoundary => "start is no multiple of 64",
            Refusal::GroupsFull => "every slot for groups is in use",
            Refusal::BlocksFull => "every slot for blocks is in use",
            Refusal::NoElement => "a pool needs at least one element",
        }
    }
}

/// What a change came to, as a number: 0 where it was made, else its refusal's.
pub fn code(change: Result<(), Refusal>) -> u8
    ensures { result ≡ code_of change }
{
    change.map_or_else(|refusal| refusal.number(), |()| 0)
}

impl fmt::Display for Refusal {
    ghost output = { λ r. Some (phrase r) };

    fn fmt<W: fmt::Write>(&self, f: &mut fmt::Formatter<W>) -> fmt::Result {
        f.write_str(self.message())
    }
}

impl Error for Refusal {}

/// A number that no refusal has.
#[derive(Clone, Copy, PartialEq, Eq, Debug)]
pub struct UnknownNumber(pub u64);

impl fmt::Display for UnknownNumber {
    ghost output = { λ _. Some (codes "no refusal has this number") };

    fn fmt<W: fmt::Write>(&self, f: &mut fmt::Formatter<W>) -> fmt::Result {
        f.write_str("no refusal has this number")
    }
}

impl Error for UnknownNumber {}

impl TryFrom<u64> for Refusal {
    type Error = UnknownNumber;

    ghost try_from_gives = { Names };

    fn try_from(number: u64) -> Result<Self, UnknownNumber> {
        match number {
            1 => Ok(Refusal::OutOfRange),
            2 => Ok(Refusal::OffBoundary),
            3 => Ok(Refusal::GroupsFull),
            4 => Ok(Refusal::BlocksFull),
            5 => Ok(Refusal::NoElement),
            _ => Err(UnknownNumber(number)),
        }
    }
}
