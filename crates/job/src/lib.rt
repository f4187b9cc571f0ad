//! The steps of a shift, done on the coverage set.
#![tactic(auto)]

ghost use Rattle.job.specs.Jobs.{Acts};
ghost use Rattle.std.specs.Prelude.{◌≡◌, OnErr};

use bitset::BitSet;
use roll::Refusal;
use shift::Step;

/// What came of a step that the set did not refuse.
#[derive(Clone, Copy, PartialEq, Eq, Debug)]
pub enum Report {
    /// The step asks nothing of the set.
    Idle,
    /// The change was made.
    Accepted,
    /// Yes or no: whether a cell is tilled, or was before its mark was taken back.
    Answered(bool),
}

/// Does one step on the set, or leaves the set as it was and says why it refused.
pub fn act(set: &mut BitSet, step: Step) -> Result<Report, Refusal>
    ensures acts { Acts step result set.old set.new }
    ensures kept { OnErr result (set.new ≡ set.old) }
{
    match step {
        Step::Mark(n) => {
            set.insert(n as usize)?;
            Ok(Report::Accepted)
        }
        Step::Block(start, word) => {
            set.insert_block(start as usize, word)?;
            Ok(Report::Accepted)
        }
        Step::Unmark(n) => Ok(Report::Answered(set.remove(n as usize)?)),
        Step::Ask(n) => Ok(Report::Answered(set.contains(n as usize))),
        _ => Ok(Report::Idle),
    }
}
