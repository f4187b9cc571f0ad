//! Replays stored calls and answers of the Rust crate and counts the answers that differ.
#![tactic(auto)]

ghost use Rattle.std.specs.Prelude.{◌≤◌};

use anyhow::bail;
use bitset::BitSet;
use memory::Memory;
use std::alloc::Global;
use std::io;
use stored::{OLD_BLOCK, OLD_WORD, read_answer, read_lines, tell_none_differs};

#[derive(Clone, Copy)]
enum Call {
    Insert(usize),
    InsertBlock(usize, u64),
    Remove(usize),
    Contains(usize),
    Used,
}

// What a call answers; the counts are of groups and of blocks.
type Answer = stored::Answer<(usize, usize)>;

#[derive(Clone, Copy)]
enum Line {
    // A new set, over pools with so many slots for groups and for blocks.
    New(u64, u64),
    Asked(Call, Answer),
}

// What a line says; fields to spare are passed over.
fn read_line(text: &str) -> Option<Line> {
    let mut f = text.split(' ');
    let line = match (f.next()?, f.next(), f.next(), f.next()) {
        ("s", Some(p), Some(q), _) => Line::New(p.parse().ok()?, q.parse().ok()?),
        ("i", Some(n), Some(r), _) => Line::Asked(Call::Insert(n.parse().ok()?), read_answer(r)?),
        ("b", Some(start), Some(word), Some(r)) => Line::Asked(
            Call::InsertBlock(start.parse().ok()?, word.parse().ok()?),
            read_answer(r)?,
        ),
        ("r", Some(n), Some(r), _) => Line::Asked(Call::Remove(n.parse().ok()?), read_answer(r)?),
        ("c", Some(n), Some(r), _) => Line::Asked(Call::Contains(n.parse().ok()?), read_answer(r)?),
        ("u", Some(g), Some(b), _) => Line::Asked(
            Call::Used,
            Answer::Counts((g.parse().ok()?, b.parse().ok()?)),
        ),
        _ => return None,
    };
    Some(line)
}

// What the port answers.
fn ask(set: &mut BitSet, call: Call) -> Answer {
    match call {
        Call::Insert(n) => set.insert(n).into(),
        Call::InsertBlock(start, word) => set.insert_block(start, word).into(),
        Call::Remove(n) => set.remove(n).into(),
        Call::Contains(n) => Answer::Said(set.contains(n)),
        Call::Used => Answer::Counts(set.used()),
    }
}

// Asks the lines of a set over slices full of old data; how many answers differ.
fn replay(heap: Global, p: u64, q: u64, lines: &[Line]) -> anyhow::Result<usize>
    requires { (p ≤ 4096) × (q ≤ 4096) }
{
    let mut memory = Memory::new(heap, p as u32, q as u32, OLD_BLOCK, OLD_WORD)?;
    let mut set = memory.set();
    let differ = lines
        .iter()
        .filter(|line| match **line {
            Line::Asked(call, answer) => ask(&mut set, call) != answer,
            Line::New(_, _) => true,
        })
        .count();
    Ok(differ)
}

// Replays run by run, where each begins with its pools. A loop adds up: each run may fail, and is told.
fn compare(rt: &HostRuntime, lines: &[Line]) -> anyhow::Result<usize> {
    let mut differ = 0usize;
    for run in lines.chunk_by(|_, next| !matches!(next, Line::New(_, _))) {
        let [Line::New(p, q), asked @ ..] = run else {
            bail!("a run begins with its pools");
        };
        if *p > 4096 || *q > 4096 {
            bail!("a pool has at most 4096 slots here");
        }
        let d = replay(rt.alloc(), *p, *q, asked)?;
        println!(rt;
            "slots for groups {p}, for blocks {q}: {} calls, {d} differ",
            asked.len()
        )?;
        differ = differ.saturating_add(d);
    }
    Ok(differ)
}

fn main(rt: HostRuntime) -> anyhow::Result<()> {
    let text = io::read_to_string(rt.alloc(), rt.stdin())?;
    let lines = read_lines(rt.alloc(), text.as_str(), read_line)?;
    let differ = compare(&rt, lines.as_slice())?;
    tell_none_differs(&rt, differ)
}
