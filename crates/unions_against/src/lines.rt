//! The lines of the stored calls on four sets.
use stored::read_answer;

#[derive(Clone, Copy)]
pub enum Call {
    Insert(usize),
    InsertBlock(usize, u64),
    Remove(usize),
    /// With the pile of that number over the other three sets.
    Unite(usize),
    Intersect(usize),
    Members,
}

/// What a set has: nonempty groups, nonempty blocks, members, and the members' checksum.
#[derive(Clone, Copy, PartialEq, Eq)]
pub struct Counts {
    pub groups: usize,
    pub blocks: usize,
    pub members: u64,
    pub checksum: u64,
}

pub type Answer = stored::Answer<Counts>;

/// A line is of one of four sets, which it names by a number, 0 to 3: an enum would be a second list of them.
#[derive(Clone, Copy)]
pub enum Line {
    /// A new, empty set, with its slots for groups and for blocks.
    New {
        set: usize,
        groups: u16,
        blocks: u16,
    },
    Asked {
        set: usize,
        call: Call,
        answer: Answer,
    },
}

impl Line {
    /// Whether a run begins here: with a new set 0.
    pub(super) fn begins_run(&self) -> bool {
        matches!(self, Line::New { set: 0, .. })
    }
}

fn read_set(field: &str) -> Option<usize> {
    field.parse().ok().filter(|k| *k < 4)
}

// A line of members: their counts are the answer.
fn read_counts(groups: &str, blocks: &str, members: &str, checksum: &str) -> Option<Answer> {
    Some(Answer::Counts(Counts {
        groups: groups.parse().ok()?,
        blocks: blocks.parse().ok()?,
        members: members.parse().ok()?,
        checksum: checksum.parse().ok()?,
    }))
}

// A call with one number.
fn read_call(op: &str, number: &str) -> Option<Call> {
    let n = number.parse().ok()?;
    match op {
        "i" => Some(Call::Insert(n)),
        "r" => Some(Call::Remove(n)),
        "u" => Some(Call::Unite(n)),
        _ => None,
    }
}

/// What a line says; fields to spare are passed over.
pub(super) fn read_line(text: &str) -> Option<Line> {
    let mut f = text.split(' ');
    let (op, set) = (f.next()?, read_set(f.next()?)?);
    let (call, answer) = match (op, f.next()?, f.next(), f.next(), f.next()) {
        ("s", groups, Some(blocks), _, _) => {
            return Some(Line::New {
                set,
                groups: groups.parse().ok()?,
                blocks: blocks.parse().ok()?,
            });
        }
        ("n", pile, _, _, _) => (Call::Intersect(pile.parse().ok()?), Answer::Change(Ok(()))),
        ("m", g, Some(b), Some(n), Some(sum)) => (Call::Members, read_counts(g, b, n, sum)?),
        ("b", start, Some(word), Some(r), _) => (
            Call::InsertBlock(start.parse().ok()?, word.parse().ok()?),
            read_answer(r)?,
        ),
        (op, n, Some(r), _, _) => (read_call(op, n)?, read_answer(r)?),
        _ => return None,
    };
    Some(Line::Asked { set, call, answer })
}
