//! Runs a shift on the coverage set and tells each step.
#![tactic(auto)]

ghost use Rattle.std.specs.Prelude.{◌≤◌, IfOk};

mod crew;
mod fault;
mod line;

use bitset::BitSet;
use crew::{Crew, Seat};
use fault::{BadLine, Fault};
use job::{Report, act};
use line::Line;
use memory::Memory;
use operands::apply::Apply;
use operands::bitset_interface::{LevelMasksIterExt, contains};
use ops::{And, Or, Sub};
use pool::block::{Block, IBlock};
use shift::Step;
use std::process::ExitCode;
use std::{env, fs, io};
use view::View;
use walks::index_iter::IndexIter;

// The largest pool that a shift may ask for: a slot for each of the 64 * 64 blocks.
const MOST_SLOTS: u64 = 4096;

const HELP: &str =
    "dispatch: runs a shift of two snow groomers on their coverage maps and tells each step

usage: dispatch [FILE]     reads the shift from FILE, or from standard input
       dispatch --help     prints this

A shift is plain text, a step to a line:
  pools P Q     each machine's slots for groups of 4096 cells and for blocks of 64; the first step,
                at most 4096 each
  machine M     the marks of machine M follow; a shift has at most two machines
  mark N        cell N is tilled; cells are numbered from 0 to 262143
  block S W     the cells S + k for each one bit k of the number W are tilled; S is a multiple of 64
  unmark N      the mark of cell N is taken back
  ask N         is cell N tilled, by either machine?
  cells N       the cells that either machine tilled, from N on
  shared N      the cells that both machines tilled, from N on
  lacking N     the cells that the other machine tilled and the present one did not, from N on
An empty line, or one that begins with #, is passed over. A change that the map refuses is told
with its number, and the shift goes on; a line that cannot be read ends it with status 1.";

fn main(rt: HostRuntime) -> ExitCode {
    match run(&rt) {
        Ok(status) => status,
        Err(e) => {
            let _ = eprintln!(rt; "dispatch: {e}");
            ExitCode::FAILURE
        }
    }
}

fn run(rt: &HostRuntime) -> anyhow::Result<ExitCode> {
    let mut args = env::args(rt)?;
    let _ = args.next();
    let Some(path) = args.next() else {
        let text = io::read_to_string(rt.alloc(), rt.stdin())?;
        tell(rt, text.as_str())?;
        return Ok(ExitCode::SUCCESS);
    };
    if path.as_str() == "--help" {
        rt.println(HELP)?;
        return Ok(ExitCode::SUCCESS);
    }
    match fs::read_to_string(rt, path.as_str()) {
        Ok(text) => {
            tell(rt, text.as_str())?;
            Ok(ExitCode::SUCCESS)
        }
        // told here, whole: an anyhow::Error keeps 120 bytes of a message
        Err(e) => {
            let _ = eprintln!(rt; "dispatch: cannot read {path}: {e}");
            Ok(ExitCode::FAILURE)
        }
    }
}

// The first step: the number of its line, and each machine's slots.
struct Pools {
    line: usize,
    groups: u32,
    blocks: u32,
}

// The first step, which gives the pools' sizes, or what is amiss in the lines up to it.
fn first_step(text: &str) -> Result<Pools, BadLine>
    ensures { IfOk result (λ p. (p.groups ≤ 4096) × (p.blocks ≤ 4096)) }
{
    for (i, text) in text.lines().enumerate() {
        let line = Line {
            number: i + 1,
            text,
        };
        match line.step()? {
            Step::Nothing => {}
            Step::Pools(p, q) if p <= MOST_SLOTS && q <= MOST_SLOTS => {
                return Ok(Pools {
                    line: line.number,
                    groups: p as u32,
                    blocks: q as u32,
                });
            }
            Step::Pools(_, _) => return Err(line.bad(Fault::PoolsTooLarge)),
            _ => return Err(line.bad(Fault::PoolsFirst)),
        }
    }
    Err(BadLine {
        line: text.lines().count() + 1,
        fault: Fault::PoolsFirst,
    })
}

// Runs the shift and tells what the map holds at its end.
fn tell(rt: &HostRuntime, text: &str) -> anyhow::Result<()> {
    let Pools {
        line,
        groups,
        blocks,
    } = first_step(text)?;
    println!(rt;
        "line {line}: two machines' maps, each with slots for groups {groups}, for blocks {blocks}"
    )?;
    let mut first = Memory::new(rt.alloc(), groups, blocks, Block::empty(), 0)?;
    let mut second = Memory::new(rt.alloc(), groups, blocks, Block::empty(), 0)?;
    let mut slope = Slope::new(rt, first.set(), second.set());
    for (i, text) in text.lines().enumerate().skip(line) {
        slope.step(Line {
            number: i + 1,
            text,
        })?;
    }
    print!(rt; "the map at the end:")?;
    slope.tell_map(0)
}

// Where the steps after the first are run and told: the machines and their maps.
#[derive(Drop)]
struct Slope<'a> {
    rt: &'a HostRuntime,
    first: BitSet<'a>,
    second: BitSet<'a>,
    crew: Crew,
}

impl<'a> Slope<'a> {
    // Both maps, with no machine there.
    fn new(rt: &'a HostRuntime, first: BitSet<'a>, second: BitSet<'a>) -> Slope<'a> {
        Slope {
            rt,
            first,
            second,
            crew: Crew::default(),
        }
    }

    // What either machine tilled.
    fn map(&self) -> Apply<Or, View<'_, 'a>, View<'_, 'a>> {
        Apply::new(Or, View::new(&self.first), View::new(&self.second))
    }

    // Its members from a cell on.
    fn tell_map(&self, from: usize) -> anyhow::Result<()> {
        tell_cells(self.rt, self.map(), from)
    }

    // Runs one step and tells what came of it.
    fn step(&mut self, line: Line) -> anyhow::Result<()> {
        match line.step()? {
            Step::Nothing => Ok(()),
            Step::Pools(_, _) => Err(line.bad(Fault::PoolsAgain).into()),
            Step::Machine(m) => self.seat(line, m),
            step @ (Step::Mark(_) | Step::Block(_, _) | Step::Unmark(_)) => self.change(line, step),
            Step::Ask(n) => self.ask(line, n as usize),
            Step::Cells(n) => self.cells(line, n as usize),
            Step::Shared(n) => self.shared(line, n as usize),
            Step::Lacking(n) => self.lacking(line, n as usize),
        }
    }

    // The machine whose marks follow.
    fn seat(&mut self, line: Line, m: u64) -> anyhow::Result<()> {
        self.crew.seat(m).map_err(|fault| line.bad(fault))?;
        let number = line.number;
        println!(self.rt; "line {number}: machine {m}")?;
        Ok(())
    }

    // A change of the present machine's map.
    fn change(&mut self, line: Line, step: Step) -> anyhow::Result<()> {
        match self.crew.present() {
            Some(Seat::First) => change(self.rt, &mut self.first, line, step),
            Some(Seat::Second) => change(self.rt, &mut self.second, line, step),
            None => Err(line.bad(Fault::NoMachine).into()),
        }
    }

    // Is the cell tilled, by either machine?
    fn ask(&self, line: Line, n: usize) -> anyhow::Result<()> {
        let word = if contains(&self.map(), n) {
            "tilled"
        } else {
            "bare"
        };
        println!(self.rt; "{line}: {word}")?;
        Ok(())
    }

    // The cells that either machine tilled.
    fn cells(&self, line: Line, n: usize) -> anyhow::Result<()> {
        print!(self.rt; "{line}: the map, from there on:")?;
        self.tell_map(n)
    }

    // The cells that both machines tilled.
    fn shared(&self, line: Line, n: usize) -> anyhow::Result<()> {
        print!(self.rt; "{line}: both machines tilled, from there on:")?;
        let both = Apply::new(And, View::new(&self.first), View::new(&self.second));
        tell_cells(self.rt, both, n)
    }

    // The cells that the other machine tilled and the present one did not.
    fn lacking(&self, line: Line, n: usize) -> anyhow::Result<()> {
        print!(self.rt; "{line}: only the other machine tilled, from there on:")?;
        let (other, present) = match self.crew.present() {
            Some(Seat::Second) => (&self.first, &self.second),
            _ => (&self.second, &self.first),
        };
        let lacking = Apply::new(Sub, View::new(other), View::new(present));
        tell_cells(self.rt, lacking, n)
    }
}

// A change of a map, with what came of it and the slots in use.
fn change(rt: &HostRuntime, set: &mut BitSet, line: Line, step: Step) -> anyhow::Result<()> {
    let came = match act(set, step) {
        Ok(Report::Idle | Report::Accepted) => "accepted",
        Ok(Report::Answered(true)) => "taken back",
        Ok(Report::Answered(false)) => "was bare",
        Err(e) => {
            let number = e.number();
            println!(rt; "{line}: refused, {number}: {e}")?;
            return Ok(());
        }
    };
    let (groups, blocks) = set.used();
    println!(rt; "{line}: {came}; in use: groups {groups}, blocks {blocks}")?;
    Ok(())
}

// The members of an operand from a cell on, and how many they are. A loop: it prints each and may fail at each.
fn tell_cells<T: LevelMasksIterExt + Drop>(
    rt: &HostRuntime,
    set: T,
    from: usize,
) -> anyhow::Result<()> {
    let mut walk = IndexIter::new(set);
    walk.move_to(from);
    let mut count = 0usize;
    for n in walk {
        print!(rt; " {n}")?;
        count = count.saturating_add(1);
    }
    println!(rt; " ({count})")?;
    Ok(())
}
