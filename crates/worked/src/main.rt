//! The worked cases: those of the table are proved from the definitions, the others are run.
#![tactic(auto)]

ghost use Rattle.worked.specs.Table.{AllHold, table};

use acts::{Stop, ThenNext, ThenSeek};
use questions::set_walks::Indices;
use roll::{Refusal, code};
use runs::calls::{Insert, InsertBlock, Remove, Unite, Used};
use runs::laws::{after_list, alike, next_call};
use runs::script::{Finish, Then};
use stored::{OLD_BLOCK, OLD_WORD};
use view::View;

/// Does nothing: its contract says that every case of the table holds.
pub fn cases_hold()
    ensures { AllHold table }
{}

// With one slot for groups and one for blocks, a set that has 0 is united with {n}.
fn unite_with(n: usize) -> Result<(), Refusal> {
    let mut upper = [OLD_BLOCK; 2];
    let mut lower = [OLD_WORD; 2];
    let (other, _) = after_list(&mut upper, &mut lower, Then::new(Insert(n), Finish));
    let mut level1 = [OLD_BLOCK; 2];
    let mut words = [OLD_WORD; 2];
    let (_, _, answer) = next_call(
        &mut level1,
        &mut words,
        Then::new(Insert(0), Finish),
        Unite(View::new(&other)),
    );
    answer
}

// With one slot of each, the first call on an empty set.
fn first_insert(n: usize) -> Result<(), Refusal> {
    let mut level1 = [OLD_BLOCK; 2];
    let mut words = [OLD_WORD; 2];
    let (_, _, answer) = next_call(&mut level1, &mut words, Finish, Insert(n));
    answer
}

fn first_block(start: usize) -> Result<(), Refusal> {
    let mut level1 = [OLD_BLOCK; 2];
    let mut words = [OLD_WORD; 2];
    let (_, _, answer) = next_call(&mut level1, &mut words, Finish, InsertBlock(start, 1));
    answer
}

// Two sets with the member 5, one of which had others before: what they answer to the same further calls, the
// numbers of a refusal, of slots in use and of the walk from 6 on.
fn two_pasts() -> (
    (u8, (usize, usize), Option<usize>),
    (u8, (usize, usize), Option<usize>),
) {
    let mut upper1 = [OLD_BLOCK; 2];
    let mut lower1 = [OLD_WORD; 3];
    let mut upper2 = [OLD_BLOCK; 2];
    let mut lower2 = [0; 3];
    let long = Then::new(
        Insert(70),
        Then::new(
            Insert(200),
            Then::new(
                Remove(70),
                Then::new(Insert(5), Then::new(Remove(200), Finish)),
            ),
        ),
    );
    let short = Then::new(Insert(5), Finish);
    let walk = ThenSeek {
        to: 6,
        rest: ThenNext(Stop),
    };
    let further = Then::new(
        Insert(130),
        Then::new(
            Insert(4096),
            Then::new(Used, Then::new(Indices(walk), Finish)),
        ),
    );
    let (a, b) = alike(
        &mut upper1,
        &mut lower1,
        &mut upper2,
        &mut lower2,
        long,
        short,
        further,
        further,
    );
    let (_, (refused1, (used1, (next1, ())))) = a;
    let (_, (refused2, (used2, (next2, ())))) = b;
    (
        (code(refused1), used1, next1.0),
        (code(refused2), used2, next2.0),
    )
}

// A line for a change.
fn tell_change(rt: &HostRuntime, case: &str, change: Result<(), Refusal>) -> anyhow::Result<()> {
    let said = if change.is_ok() {
        "accepted"
    } else {
        "refused"
    };
    let number = code(change);
    println!(rt; "  {case}: {said} ({number})")?;
    Ok(())
}

// A line for each of the two.
fn tell(rt: &HostRuntime, answers: (u8, (usize, usize), Option<usize>)) -> anyhow::Result<()> {
    let (number, (groups, blocks), next) = answers;
    let next = next.unwrap_or(0);
    println!(rt; "  insert 4096: {number}; in use: {groups}, {blocks}; from 6 on: {next}")?;
    Ok(())
}

fn main(rt: HostRuntime) -> anyhow::Result<()> {
    cases_hold();
    println!(rt; "the table of worked cases is proved")?;
    println!(rt; "one slot for groups, one for blocks:")?;
    tell_change(&rt, "has 0, unite with 1", unite_with(1))?;
    tell_change(&rt, "has 0, unite with 64", unite_with(64))?;
    tell_change(&rt, "empty, insert 262143", first_insert(262143))?;
    tell_change(&rt, "empty, block at 262016", first_block(262016))?;
    println!(rt; "two sets with the member 5, with other pasts:")?;
    let (a, b) = two_pasts();
    tell(&rt, a)?;
    tell(&rt, b)?;
    Ok(())
}
