//! Replays stored calls of unite and intersect on four sets, with operands made of the other three, and
//! counts the answers that differ from the Rust crate's.
#![tactic(auto)]

ghost use Rattle.std.specs.Prelude.{◌<◌, length, IfOk};

mod lines;
mod shapes;

use bitset::BitSet;
use lines::{Answer, Call, Counts, Line, read_line};
use memory::Memory;
use operands::bitset_interface::{LevelMasks, LevelMasksIterExt};
use roll::Refusal;
use shapes::{Intersect, Unite, visit_pile};
use std::alloc::{AllocError, Global};
use std::io;
use stored::{OLD_BLOCK, OLD_WORD, read_lines, tell_none_differs};
use view::View;
use walks::index_iter::IndexIter;

// How many members an operand has, and their sum, each times its place in order from 1. A loop: it makes both in one walk.
fn checksum<T: LevelMasksIterExt + Drop>(set: T) -> (u64, u64) {
    let mut count = 0u64;
    let mut sum = 0u64;
    for n in IndexIter::new(set) {
        count = count.wrapping_add(1);
        sum = sum.wrapping_add((n as u64).wrapping_mul(count));
    }
    (count, sum)
}

// The set's groups, blocks and members.
fn counts(set: &BitSet) -> Counts {
    let (groups, blocks) = set.used();
    let (members, checksum) = checksum(View::new(set));
    Counts {
        groups,
        blocks,
        members,
        checksum,
    }
}

// What the port answers to a call on a set, where a, b and c are the others. The sets come one by one, not as an array:
// the one that is called is lent to write among the others.
fn ask(set: &mut BitSet, a: &BitSet, b: &BitSet, c: &BitSet, call: Call) -> Answer {
    let others = [View::new(a), View::new(b), View::new(c)];
    match call {
        Call::Insert(n) => set.insert(n).into(),
        Call::InsertBlock(start, word) => set.insert_block(start, word).into(),
        Call::Remove(n) => set.remove(n).into(),
        Call::Unite(pile) => visit_pile(Unite(set), pile, others).into(),
        Call::Intersect(pile) => visit_pile(Intersect(set), pile, others).into(),
        Call::Members => Answer::Counts(counts(set)),
    }
}

// Whether the port answers a line in another way, where a new set is asked nothing.
fn differs(a: &mut BitSet, b: &mut BitSet, c: &mut BitSet, d: &mut BitSet, line: Line) -> bool {
    let Line::Asked { set, call, answer } = line else {
        return false;
    };
    let said = match set {
        0 => ask(a, b, c, d, call),
        1 => ask(b, a, c, d, call),
        2 => ask(c, a, b, d, call),
        _ => ask(d, a, b, c, call),
    };
    said != answer
}

// The slots of a set by its line; none without one.
fn slots(lines: &[Line], k: usize) -> (u16, u16) {
    lines
        .iter()
        .find_map(|line| match *line {
            Line::New {
                set,
                groups,
                blocks,
            } if set == k => Some((groups, blocks)),
            _ => None,
        })
        .unwrap_or((0, 0))
}

// Memory full of old data, for a set with so many slots.
fn room(heap: Global, slots: (u16, u16)) -> Result<Memory, AllocError>
    ensures { IfOk result (λ m. (0 < length m.level1.items) × (0 < length m.words.items)) }
{
    let (p, q) = slots;
    Memory::new(heap, u32::from(p), u32::from(q), OLD_BLOCK, OLD_WORD)
}

// All calls of a run: how many answers differ.
fn run(heap: Global, lines: &[Line]) -> anyhow::Result<usize> {
    let mut memory0 = room(heap, slots(lines, 0))?;
    let mut memory1 = room(heap, slots(lines, 1))?;
    let mut memory2 = room(heap, slots(lines, 2))?;
    let mut memory3 = room(heap, slots(lines, 3))?;
    let mut a = memory0.set();
    let mut b = memory1.set();
    let mut c = memory2.set();
    let mut d = memory3.set();
    let differ = lines
        .iter()
        .filter(|line| differs(&mut a, &mut b, &mut c, &mut d, **line))
        .count();
    Ok(differ)
}

// How many unites with that answer.
fn unites(lines: &[Line], answer: Result<(), Refusal>) -> usize {
    lines
        .iter()
        .filter(|line| match **line {
            Line::Asked {
                call: Call::Unite(_),
                answer: said,
                ..
            } => said == answer.into(),
            _ => false,
        })
        .count()
}

// A run's counts, and how many answers differ.
fn tell(rt: &HostRuntime, lines: &[Line], differ: usize) -> anyhow::Result<()> {
    let all = lines.len();
    let taken = unites(lines, Ok(()));
    let threes = unites(lines, Err(Refusal::GroupsFull));
    let fours = unites(lines, Err(Refusal::BlocksFull));
    let cuts = lines
        .iter()
        .filter(|line| {
            matches!(
                line,
                Line::Asked {
                    call: Call::Intersect(_),
                    ..
                }
            )
        })
        .count();
    println!(rt;
        "{all} lines: {taken} unites accepted, {threes} refused with 3, {fours} with 4, {cuts} intersects, {differ} differ"
    )?;
    Ok(())
}

// Replays run by run. A loop adds up: each run may fail, and is told.
fn compare(rt: &HostRuntime, lines: &[Line]) -> anyhow::Result<usize> {
    let mut differ = 0usize;
    for part in lines.chunk_by(|_, next| !next.begins_run()) {
        let d = run(rt.alloc(), part)?;
        tell(rt, part, d)?;
        differ = differ.saturating_add(d);
    }
    Ok(differ)
}

fn main(rt: HostRuntime) -> anyhow::Result<()> {
    let text = io::read_to_string(rt.alloc(), rt.stdin())?;
    let lines = read_lines(rt.alloc(), text.as_str(), read_line)?;
    let differ = compare(&rt, lines.as_slice())?;
    tell_none_differs(&rt, differ)
}
