//! What the programs that replay stored answers share: the lines of their input, what lent memory holds before, and
//! piles that a visitor goes to.
#![tactic(auto)]

ghost use Rattle.std.specs.Prelude.{◌≡◌, ◌≢◌, ◌<◌, ◌≤◌, ◌^◌, ℕ, Bool, true, false, Some, None, Ok, Err, IfOk, OnOk, MatchResult, codes};
ghost use Rattle.std.specs.Fn.{FnReturnsAt};
ghost use Rattle.std.specs.List.{AllZip};
ghost use Rattle.std.specs.Str.Lines.{lines};
ghost use Rattle.std.specs.Str.Parse.{IsNumeral, digits_value, without_leading_plus};
ghost use Rattle.roll.specs.Members.{members};
ghost use Rattle.roll.specs.Refusals.{number};
ghost use Rattle.roll.specs.declared.Refusal.{Refusal};
ghost use Rattle.roll.specs.declared.UnknownNumber.{UnknownNumber};
ghost use Rattle.stored.specs.declared.Answer.TheVariants.{Change, Said, Counts, Unknown};

use anyhow::{Context, bail};
use operands::bitset_interface::{LevelMasks, LevelMasksIterExt};
use pool::block::Block;
use roll::{Refusal, UnknownNumber};
use std::alloc::Global;

/// What a block holds before it is lent.
pub const OLD_BLOCK: Block = Block {
    mask: 0x5555_5555_5555_5555,
    slots: [65535; 64],
};

/// What a word holds before it is lent.
pub const OLD_WORD: u64 = 0xdead_beef_dead_beef;

/// What each line of a text reads as; a line that reads as nothing is an error, which tells the line. So a reader answers
/// an `Option`: an error type of its own would say nothing more.
pub fn read_lines<'t, T: Drop, F: Fn(&'t str) -> Option<T>>(
    heap: Global,
    text: &'t str,
    read: F,
) -> anyhow::Result<Vec<T>>
    requires { F.IsAlwaysCallable read }
    ensures { IfOk result (λ v. AllZip (λ line item. FnReturnsAt F.Fn read line (Some item)) (lines text.now) v.items) }
{
    let mut items = Vec::new(heap);
    for line in text.lines() {
        let item = read(line).with_context(|| format!(in heap; "cannot read: {line}"))?;
        items.push(item)?;
    }
    Ok(items)
}

/// What goes to a pile of combinations, whatever its type. What comes of it depends on the pile's members, by any relation,
/// where an asker of a list of calls answers a function of them.
pub trait Visit {
    type Answer;

    // the answer is one to a pile with those members
    ghost sees: { Self → (ℕ → Bool) → Self.Answer → Type 0 };

    fn visit<T: LevelMasksIterExt + Drop>(self, pile: T) -> Self::Answer
        ensures { sees self (members (T.LevelMasks.word pile)) result };
}

/// What a call answered: that it changed the set or was refused, yes or no, or counts; or, in a stored line alone, a number
/// that no refusal has, which differs from each answer of a call.
#[derive(Clone, Copy, PartialEq, Eq)]
pub enum Answer<C> {
    Change(Result<(), Refusal>),
    Said(bool),
    Counts(C),
    Unknown(UnknownNumber),
}

impl<C> From<Result<(), Refusal>> for Answer<C> {
    ghost from_gives = { λ r a. a ≡ Change r };

    fn from(r: Result<(), Refusal>) -> Answer<C> {
        Answer::Change(r)
    }
}

impl<C> From<Result<bool, Refusal>> for Answer<C> {
    ghost from_gives = { λ r a. MatchResult r (λ b. a ≡ Said b) (λ e. a ≡ Change (Err e)) };

    fn from(r: Result<bool, Refusal>) -> Answer<C> {
        match r {
            Ok(was) => Answer::Said(was),
            Err(e) => Answer::Change(Err(e)),
        }
    }
}

/// The answer of a field: y, n, 0 for a change, a refusal's number, or another number.
pub fn read_answer<C>(field: &str) -> Option<Answer<C>>
    ensures yes { field.now ≡ codes "y" → result ≡ Some (Said true) }
    ensures no { field.now ≡ codes "n" → result ≡ Some (Said false) }
    ensures changed { field.now ≡ codes "0" → result ≡ Some (Change (Ok tt)) }
    ensures refused { (r : Refusal) → result ≡ Some (Change (Err r)) → number r ≡ digits_value 10 (without_leading_plus field.now) }
    ensures told { (r : Refusal) → IsNumeral 10 (without_leading_plus field.now) → number r ≡ digits_value 10 (without_leading_plus field.now) → result ≡ Some (Change (Err r)) }
    ensures said_yes { result ≡ Some (Said true) → field.now ≡ codes "y" }
    ensures said_no { result ≡ Some (Said false) → field.now ≡ codes "n" }
    ensures made { (u : Unit {0}) → result ≡ Some (Change (Ok u)) → field.now ≡ codes "0" }
    ensures uncounted { (c : C) → result ≢ Some (Counts c) }
    ensures unread { result ≡ None → (field.now ≢ codes "y") × (field.now ≢ codes "n") × (IsNumeral 10 (without_leading_plus field.now) → 2 ^ 64 ≤ digits_value 10 (without_leading_plus field.now)) }
    ensures unknown { (n : UnknownNumber) → result ≡ Some (Unknown n) → (n.0 ≡ digits_value 10 (without_leading_plus field.now)) × ((r : Refusal) → number r ≢ n.0) }
    ensures other { (n : UnknownNumber) → IsNumeral 10 (without_leading_plus field.now) → n.0 ≡ digits_value 10 (without_leading_plus field.now) → n.0 < 2 ^ 64 → ((r : Refusal) → number r ≢ n.0) → field.now ≢ codes "0" → result ≡ Some (Unknown n) }
{
    let answer = match field {
        "y" => Answer::Said(true),
        "n" => Answer::Said(false),
        "0" => Answer::Change(Ok(())),
        other => match Refusal::try_from(other.parse::<u64>().ok()?) {
            Ok(refusal) => Answer::Change(Err(refusal)),
            Err(unknown) => Answer::Unknown(unknown),
        },
    };
    Some(answer)
}

/// Says that no answer differs, or fails.
pub fn tell_none_differs(rt: &HostRuntime, differ: usize) -> anyhow::Result<()>
    ensures { OnOk result (differ ≡ 0) }
{
    if differ > 0 {
        bail!("answers differ");
    }
    println!(rt; "no answer differs")?;
    Ok(())
}

#[cfg(test)]
mod tests {
    use super::{Answer, OLD_BLOCK, OLD_WORD, Visit, read_answer, read_lines, tell_none_differs};
    use bitset::BitSet;
    use operands::bitset_interface::{LevelMasksIterExt, contains};
    use roll::{Refusal, UnknownNumber};
    use view::View;

    fn double(text: &str) -> Option<u64> {
        text.parse::<u64>().ok()?.checked_mul(2)
    }

    #[test]
    fn lines_are_read(rt: HostRuntime) {
        let Ok(read) = read_lines(rt.alloc(), "5\n70\n", double) else {
            panic!(rt; "cannot read")
        };
        assert_eq!(rt; read.as_slice(), [10, 140].as_slice());
        assert!(rt; read_lines(rt.alloc(), "5\nfive\n", double).is_err());
    }

    #[test]
    fn answers_are_read(rt: HostRuntime) {
        assert!(rt; read_answer::<()>("y") == Some(Answer::Said(true)));
        assert!(rt; read_answer::<()>("n") == Some(Answer::Said(false)));
        assert!(rt; read_answer::<()>("0") == Some(Answer::Change(Ok(()))));
        assert!(rt; read_answer::<()>("4") == Some(Answer::Change(Err(Refusal::BlocksFull))));
        assert!(rt; read_answer::<()>("6") == Some(Answer::Unknown(UnknownNumber(6))));
        assert!(rt; read_answer::<()>("00") == Some(Answer::Unknown(UnknownNumber(0))));
        assert!(rt; read_answer::<()>("x").is_none() && read_answer::<()>("").is_none());
    }

    #[test]
    fn answers_are_made(rt: HostRuntime) {
        let taken: Result<(), Refusal> = Ok(());
        let was: Result<bool, Refusal> = Ok(true);
        let refused: Result<bool, Refusal> = Err(Refusal::OutOfRange);
        assert!(rt; Answer::<()>::from(taken) == Answer::Change(Ok(())));
        assert!(rt; Answer::<()>::from(was) == Answer::Said(true));
        assert!(rt; Answer::<()>::from(refused) == Answer::Change(Err(Refusal::OutOfRange)));
    }

    #[test]
    fn tells_none_differs(rt: HostRuntime) {
        assert!(rt; tell_none_differs(&rt, 0).is_ok() && tell_none_differs(&rt, 1).is_err());
    }

    // Whether a pile has an index.
    #[derive(Drop)]
    struct Has(usize);

    impl Visit for Has {
        type Answer = bool;

        ghost sees = { λ h M r. r ≡ M h.0 };

        fn visit<T: LevelMasksIterExt + Drop>(self, pile: T) -> bool {
            contains(&pile, self.0)
        }
    }

    #[test]
    fn a_visitor_sees_members(rt: HostRuntime) {
        let mut groups = [OLD_BLOCK; 2];
        let mut blocks = [OLD_WORD; 2];
        let mut set = BitSet::over(&mut groups, &mut blocks);
        assert!(rt; set.insert(70).is_ok());
        assert!(rt; Has(70).visit(View::new(&set)) && !Has(71).visit(View::new(&set)));
    }
}
