//! Replays stored walks with seeks over stored sets and combinations of them, and counts the answers
//! that differ from the Rust crate's.
#![tactic(auto)]

ghost use Rattle.std.specs.Prelude.{◌<◌, length, IfOk};

mod lines;
mod shapes;

use bitset::BitSet;
use lines::{Line, number, read_line};
use memory::Memory;
use shapes::{Blocks, Indices, visit_pile};
use std::alloc::{AllocError, Global};
use std::io;
use stored::{OLD_BLOCK, OLD_WORD, read_lines, tell_none_differs};
use view::View;

// Memory for one of a family's sets, full of old data.
fn room(heap: Global) -> Result<Memory, AllocError>
    ensures { IfOk result (λ m. (0 < length m.level1.items) × (0 < length m.words.items)) }
{
    Memory::new(heap, 64, 128, OLD_BLOCK, OLD_WORD)
}

// The set gains the members of a line, which are numbers with a space between two, maybe signed; how many they are.
fn gain(set: &mut BitSet, members: &[u8]) -> usize {
    let mut count = 1usize;
    let mut n = 0usize;
    for b in members {
        if b.is_ascii_digit() {
            n = n.saturating_mul(10).saturating_add(usize::from(*b - b'0'));
        } else if *b == b' ' {
            let _ = set.insert(n);
            count = count.saturating_add(1);
            n = 0;
        }
    }
    let _ = set.insert(n);
    count
}

// The same of the set that the first number names, if it is one of the four.
fn give(a: &mut BitSet, b: &mut BitSet, c: &mut BitSet, d: &mut BitSet, numbers: &str) -> usize {
    let Some((k, members)) = numbers.split_once(' ') else {
        return 0;
    };
    match number(k) {
        Some(0) => gain(a, members.as_bytes()),
        Some(1) => gain(b, members.as_bytes()),
        Some(2) => gain(c, members.as_bytes()),
        Some(3) => gain(d, members.as_bytes()),
        _ => members.split(' ').count(),
    }
}

// The sets gain their members; how many entries the lines make: a new set, each member, and each other line are one.
fn fill(a: &mut BitSet, b: &mut BitSet, c: &mut BitSet, d: &mut BitSet, lines: &[Line]) -> usize {
    let mut entries = 0usize;
    for line in lines {
        let made = match *line {
            Line::New(numbers) => give(a, b, c, d, numbers).saturating_add(1),
            Line::More(numbers) => give(a, b, c, d, numbers),
            _ => 1,
        };
        entries = entries.saturating_add(made);
    }
    entries
}

// The four sets of a family, and the walks over them: how many entries the lines make, and how many answers differ.
fn family(heap: Global, lines: &[Line]) -> anyhow::Result<(usize, usize)> {
    let mut memory0 = room(heap)?;
    let mut memory1 = room(heap)?;
    let mut memory2 = room(heap)?;
    let mut memory3 = room(heap)?;
    let mut a = memory0.set();
    let mut b = memory1.set();
    let mut c = memory2.set();
    let mut d = memory3.set();
    let entries = fill(&mut a, &mut b, &mut c, &mut d, lines);
    Ok((entries, walks(&a, &b, &c, &d, lines)))
}

// All walks over the four sets, which come one by one: a call with an array of references to sets gets no proof.
fn walks(a: &BitSet, b: &BitSet, c: &BitSet, d: &BitSet, lines: &[Line]) -> usize {
    let sets = [View::new(a), View::new(b), View::new(c), View::new(d)];
    lines
        .chunk_by(|_, next| next.is_asked())
        .map(|walk| match walk {
            [Line::Blocks(pile), asked @ ..] => visit_pile(Blocks(asked), *pile, sets),
            [Line::Indices(pile), asked @ ..] => visit_pile(Indices(asked), *pile, sets),
            _ => 0,
        })
        .fold(0usize, |differ, wrong| differ.saturating_add(wrong))
}

// Replays family by family, where each begins with its set 0. A loop adds up: each may fail, and is told.
fn compare(rt: &HostRuntime, lines: &[Line]) -> anyhow::Result<usize> {
    let mut differ = 0usize;
    for part in lines.chunk_by(|_, next| !next.begins_family()) {
        let (entries, wrong) = family(rt.alloc(), part)?;
        println!(rt; "family of {entries} entries: {wrong} answers differ")?;
        differ = differ.saturating_add(wrong);
    }
    Ok(differ)
}

fn main(rt: HostRuntime) -> anyhow::Result<()> {
    let text = io::read_to_string(rt.alloc(), rt.stdin())?;
    let mut lines = read_lines(rt.alloc(), text.as_str(), read_line)?;
    lines.retain(|line| !matches!(line, Line::Bare));
    let differ = compare(&rt, lines.as_slice())?;
    tell_none_differs(&rt, differ)
}
