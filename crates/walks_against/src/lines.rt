//! The lines of the stored walks.
use walks::block_iter::DataBlock;

/// A line; it has 24 bytes, since a replay keeps all of them.
#[derive(Clone, Copy)]
pub enum Line<'t> {
    /// A new set, and further members of one: its number, 0 to 3 (an enum would be a second list of them), and the members.
    New(&'t str),
    More(&'t str),
    /// Further members, and none of them: a walk goes on over such a line.
    Bare,
    /// A block walk, an index walk over the pile of that number.
    Blocks(usize),
    Indices(usize),
    /// A seek of that walk, and what next answered.
    Seek(usize),
    Block(DataBlock),
    Index(usize),
    End,
}

/// What walks of one kind hand out.
pub trait Item: Copy + PartialEq {
    /// What a line says that the walk handed out: nothing at its end, and where the line is of the other kind of walk.
    fn handed(line: &Line) -> Option<Self>;
}

impl Item for DataBlock {
    fn handed(line: &Line) -> Option<DataBlock> {
        match line {
            Line::Block(block) => Some(*block),
            _ => None,
        }
    }
}

impl Item for usize {
    fn handed(line: &Line) -> Option<usize> {
        match line {
            Line::Index(index) => Some(*index),
            _ => None,
        }
    }
}

impl Line<'_> {
    /// Whether a family of sets begins here.
    pub(super) fn begins_family(&self) -> bool {
        match self {
            Line::New(numbers) => numbers.split(' ').next().and_then(number) == Some(0),
            _ => false,
        }
    }

    /// Whether the line is asked of the walk before it.
    pub(super) fn is_asked(&self) -> bool {
        matches!(
            self,
            Line::Seek(_) | Line::Block(_) | Line::Index(_) | Line::End
        )
    }
}

/// The number of a field.
pub(super) fn number(field: &str) -> Option<usize> {
    field.parse().ok()
}

// Whether fields of 1 to 19 digits stand there, with a space between two: these are numbers, and need not be read one by one.
fn are_short(numbers: &[u8]) -> bool {
    let mut digits = 0u8;
    for b in numbers {
        if b.is_ascii_digit() && digits < 19 {
            digits += 1;
        } else if *b == b' ' && digits > 0 {
            digits = 0;
        } else {
            return false;
        }
    }
    digits > 0
}

// The numbers of a set's line, if all are numbers with one space between two.
fn read_numbers<'t>(numbers: &'t str) -> Option<&'t str> {
    if are_short(numbers.as_bytes()) || numbers.split(' ').all(|n| number(n).is_some()) {
        Some(numbers)
    } else {
        None
    }
}

/// What a line says; fields to spare are passed over.
pub(super) fn read_line<'t>(text: &'t str) -> Option<Line<'t>> {
    let mut f = text.split(' ');
    let line = match (f.next()?, f.next()?, f.next()) {
        ("s", _, _) => Line::New(read_numbers(text.get(2..)?)?),
        ("+", k, None) => number(k).map(|_| Line::Bare)?,
        ("+", _, _) => Line::More(read_numbers(text.get(2..)?)?),
        ("b", pile, _) => Line::Blocks(number(pile)?),
        ("i", pile, _) => Line::Indices(number(pile)?),
        ("m", s, _) => Line::Seek(number(s)?),
        ("n", "-", None) => Line::End,
        ("n", n, None) => Line::Index(number(n)?),
        ("n", start, Some(word)) => Line::Block(DataBlock {
            start_index: number(start)?,
            bit_block: word.parse().ok()?,
        }),
        _ => return None,
    };
    Some(line)
}
