//! Any slice of nexts and seeks of a walk has one list of answers; over members it depends on the members alone.
#![tactic(auto)]

ghost use Rattle.std.specs.Prelude.{◌≡◌, ℕ, Bool, IfOk, refl};
ghost use Rattle.acts.specs.Answers.{answers};
ghost use Rattle.roll.specs.Members.{members};
ghost use Rattle.seeks.specs.Same.{SameAnswers};
ghost use Rattle.walks.specs.Indices.{listed, from};

use acts::{Action, Walk};
use operands::bitset_interface::{LevelMasks, LevelMasksIterExt};
use std::alloc::{AllocError, Global};
use walks::index_iter::IndexIter;

/// A walk over the members of a set: all of it are the members, ascending, and a seek to s leaves those from s on.
pub trait MemberWalk: Walk<usize> {
    // the set that it goes over
    ghost holds: { Self → ℕ → Bool };

    ghost lists: { (w : Self) → Self.Walk.all w ≡ listed (holds w) };

    ghost cuts: { Self.Walk.cut ≡ from };
}

impl<T: LevelMasksIterExt> MemberWalk for IndexIter<T> {
    ghost holds = { λ w. members (T.LevelMasks.word w.walk.set) };

    ghost lists = { λ w. refl };

    ghost cuts = { refl };
}

/// The answers of a walk to a list of actions, one for each next.
pub fn run<I: Drop, W: Walk<I>>(
    heap: Global,
    walk: &mut W,
    actions: &[Action],
) -> Result<Vec<Option<I>>, AllocError>
    ensures { IfOk result (λ v. v.items ≡ answers W.Walk.cut (W.Walk.all walk.old) (W.Walk.left walk.old) actions.now) }
{
    let mut out = Vec::new(heap);
    for a in actions {
        match *a {
            Action::Next => out.push(walk.step())?,
            Action::Seek(s) => walk.seek(s),
        }
    }
    Ok(out)
}

/// The same of a walk over members: its answers depend on the members, and on what it has left.
pub fn run_over<W: MemberWalk>(
    heap: Global,
    walk: &mut W,
    actions: &[Action],
) -> Result<Vec<Option<usize>>, AllocError>
    ensures { IfOk result (λ v. v.items ≡ answers from (listed (W.MemberWalk.holds walk.old)) (W.Walk.left walk.old) actions.now) }
{
    run(heap, walk, actions)
}

/// The answers of a new walk over an operand: they depend on its members alone.
pub fn answers_of<T: LevelMasksIterExt + Drop>(
    heap: Global,
    set: T,
    actions: &[Action],
) -> Result<Vec<Option<usize>>, AllocError>
    ensures { IfOk result (λ v. v.items ≡ answers from (listed (members (T.LevelMasks.word set))) (listed (members (T.LevelMasks.word set))) actions.now) }
{
    let mut walk = IndexIter::new(set);
    run_over(heap, &mut walk, actions)
}

/// Does nothing: its contract says that operands with the same members get the same answers. That of `acts` says it of
/// block walks too; this one is the theorem of this crate's callers.
pub fn same_answers()
    ensures { SameAnswers }
{}
