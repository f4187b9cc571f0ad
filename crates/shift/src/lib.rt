// Reads one line of a shift file: what a snow groomer did, as a step.
#![tactic(auto)]

ghost use Rattle.shift.specs.Fields.{Amiss};
ghost use Rattle.shift.specs.Lines.{Fault, Says, wording};
ghost use Rattle.shift.specs.Words.{due, spelling};
ghost use Rattle.std.specs.Prelude.{◌≡◌, ◌++◌, Some, Ok, Err, MatchResult};

mod fields;
#[cfg(test)]
mod tests;
mod words;

use fields::{first_field, one_number, two_numbers};
use std::error::Error;
use std::fmt;
use words::Word;

// A line that begins with this byte is a note.
const NOTE: u8 = b'#';

/// What a line says.
#[derive(Clone, Copy, PartialEq, Eq, Debug)]
pub enum Step {
    /// An empty line or a note.
    Nothing,
    /// The sizes of the two pools: slots for groups, slots for blocks.
    Pools(u64, u64),
    /// The machine whose marks follow.
    Machine(u64),
    /// A cell was tilled.
    Mark(u64),
    /// A whole block: where it starts, and a bit for each of its cells.
    Block(u64, u64),
    /// A mark taken back.
    Unmark(u64),
    /// Is this cell tilled?
    Ask(u64),
    /// The cells of the map, from this one on.
    Cells(u64),
    /// The cells that both machines tilled, from this one on.
    Shared(u64),
    /// The cells that the other machine tilled and the present one did not, from this one on.
    Lacking(u64),
}

/// What was expected where a line goes wrong.
#[derive(Clone, Copy, PartialEq, Eq, Debug)]
pub enum Expected {
    /// The first field is no keyword.
    Keyword,
    /// A number is missing, or its field is not 1 to 20 decimal digits.
    Number,
    /// The number has more than 64 bits.
    TooLarge,
    /// Something stands after the last number.
    End,
}

impl Expected {
    /// What was expected, in words for the user.
    pub fn message(&self) -> &'static str
        ensures { result.now ≡ wording self.now }
    {
        match self {
            Expected::Keyword =>
                "pools, machine, mark, block, unmark, ask, cells, shared or lacking",
            Expected::Number => "one space and a number of 1 to 20 decimal digits",
            Expected::TooLarge => "a number of at most 18446744073709551615",
            Expected::End => "nothing more on the line",
        }
    }
}

impl fmt::Display for Expected {
    ghost output = { λ e. Some (wording e) };

    fn fmt<W: fmt::Write>(&self, f: &mut fmt::Formatter<W>) -> fmt::Result {
        f.write_str(self.message())
    }
}

impl Error for Expected {}

// The step of a keyword and the numbers listed after it.
fn step_of(word: Word, list: &[u8]) -> Result<Step, Expected>
    ensures { MatchResult result (λ st. Says (spelling word ++ list.now) st) (λ e. Amiss (due word) list.now e) }
{
    match word {
        Word::Pools => two_numbers(list).map(|(groups, blocks)| Step::Pools(groups, blocks)),
        Word::Machine => one_number(list).map(Step::Machine),
        Word::Mark => one_number(list).map(Step::Mark),
        Word::Block => two_numbers(list).map(|(start, cells)| Step::Block(start, cells)),
        Word::Unmark => one_number(list).map(Step::Unmark),
        Word::Ask => one_number(list).map(Step::Ask),
        Word::Cells => one_number(list).map(Step::Cells),
        Word::Shared => one_number(list).map(Step::Shared),
        Word::Lacking => one_number(list).map(Step::Lacking),
    }
}

/// What a line says, without its line end; or what was expected where it goes wrong.
///
/// The clauses `only` and `alone` leave each line one answer: it says one step or goes wrong in one way, and never both.
pub fn read_step(line: &[u8]) -> Result<Step, Expected>
    ensures told { MatchResult result (λ st. Says line.now st) (λ e. Fault line.now e) }
    ensures only { (st : Step) → Says line.now st → result ≡ Ok st }
    ensures alone { (e : Expected) → Fault line.now e → result ≡ Err e }
{
    if line.is_empty() || line[0] == NOTE {
        return Ok(Step::Nothing);
    }
    let (word, list) = first_field(line);
    step_of(Word::try_from(word)?, list)
}
