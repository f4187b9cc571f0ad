//! The laws over whole lists of calls: what becomes of every slot, when a next call is refused for memory, and
//! that sets with the same members answer alike.
ghost use Rattle.std.specs.Prelude.{◌≡◌, ℕ, ◌<◌, length};
ghost use Rattle.tree.specs.Slots.{Stands};
ghost use Rattle.bitset.specs.Sets.{roll_of};
ghost use Rattle.runs.specs.Asks.{new_roll, reply, next, replies, leaves};
ghost use Rattle.runs.specs.Memory.{MemoryRule};
ghost use Rattle.runs.specs.SameAsks.{SameAsks};

use super::calls::Call;
use super::script::Script;
use bitset::BitSet;
use pool::block::Block;

/// A new set over two lent slices, whatever they held, after a list of calls. The answers and the members are
/// the roll's (`answers`, `members`). Each slot but slot 0 is held by one entry, or stands once on the chain of
/// free blocks, or was never taken; as many are held as there are nonempty groups and blocks (`slots`).
pub fn after_list<'a, S: Script>(
    level1: &'a mut [Block],
    data: &'a mut [u64],
    list: S,
) -> (BitSet<'a>, S::Answers)
    requires level1 { 0 < length level1.old }
    requires words { 0 < length «data».old }
    ensures slots { Stands result.0.tree }
    ensures members { roll_of result.0 ≡ leaves (new_roll level1.old «data».old) (S.Script.asks list) }
    ensures answers { S.Script.shown result.1 ≡ replies (new_roll level1.old «data».old) (S.Script.asks list) }
    ensures lent { (result.0.tree.level1.blocks.ghost_name ≡ level1.entry.ghost_name) × (result.0.tree.«data».blocks.ghost_name ≡ «data».entry.ghost_name) }
{
    let mut set = BitSet::over(level1, data);
    let answers = list.run(&mut set);
    set.stands();
    (set, answers)
}

/// A call after a list. It is refused for memory exactly where the members that it would leave, were there no
/// limit, have more nonempty groups or blocks than the pools have slots beside slot 0 (`memory`). Its answer and
/// what it leaves are the roll's (`answer`, `members`).
pub fn next_call<'a, S: Script, C: Call>(
    level1: &'a mut [Block],
    data: &'a mut [u64],
    list: S,
    call: C,
) -> (BitSet<'a>, S::Answers, C::Answer)
    requires level1 { 0 < length level1.old }
    requires words { 0 < length «data».old }
    ensures memory { MemoryRule (leaves (new_roll level1.old «data».old) (S.Script.asks list)) (C.Call.asks call) (C.Call.shown result.2) }
    ensures answer { C.Call.shown result.2 ≡ reply (leaves (new_roll level1.old «data».old) (S.Script.asks list)) (C.Call.asks call) }
    ensures members { roll_of result.0 ≡ next (leaves (new_roll level1.old «data».old) (S.Script.asks list)) (C.Call.asks call) }
    ensures answers { S.Script.shown result.1 ≡ replies (new_roll level1.old «data».old) (S.Script.asks list) }
    ensures lent { (result.0.tree.level1.blocks.ghost_name ≡ level1.entry.ghost_name) × (result.0.tree.«data».blocks.ghost_name ≡ «data».entry.ghost_name) }
{
    let (mut set, answers) = after_list(level1, data, list);
    let answer = call.on(&mut set);
    (set, answers, answer)
}

/// Two sets, each made over its slices by its list, then each asked a further list. Where the slices are
/// equally long, the first lists leave the same members and the further lists ask the same, operands being
/// compared by their members alone, the answers are the same (`same`). Both are the roll's (`first`, `second`).
pub fn alike<S1: Script, S2: Script, F1: Script, F2: Script>(
    upper1: &mut [Block],
    lower1: &mut [u64],
    upper2: &mut [Block],
    lower2: &mut [u64],
    s1: S1,
    s2: S2,
    f1: F1,
    f2: F2,
) -> (F1::Answers, F2::Answers)
where
    S1::Answers: Drop,
    S2::Answers: Drop,
    requires upper { (0 < length upper1.old) × (0 < length upper2.old) }
    requires lower { (0 < length lower1.old) × (0 < length lower2.old) }
    ensures same { length upper1.old ≡ length upper2.old → length lower1.old ≡ length lower2.old
        → ((n : ℕ) → (leaves (new_roll upper1.old lower1.old) (S1.Script.asks s1)).has n ≡ (leaves (new_roll upper2.old lower2.old) (S2.Script.asks s2)).has n)
        → SameAsks (F1.Script.asks f1) (F2.Script.asks f2)
        → F1.Script.shown result.0 ≡ F2.Script.shown result.1 }
    ensures first { F1.Script.shown result.0 ≡ replies (leaves (new_roll upper1.old lower1.old) (S1.Script.asks s1)) (F1.Script.asks f1) }
    ensures second { F2.Script.shown result.1 ≡ replies (leaves (new_roll upper2.old lower2.old) (S2.Script.asks s2)) (F2.Script.asks f2) }
{
    let (mut one, _) = after_list(upper1, lower1, s1);
    let (mut two, _) = after_list(upper2, lower2, s2);
    let answers1 = f1.run(&mut one);
    let answers2 = f2.run(&mut two);
    (answers1, answers2)
}
