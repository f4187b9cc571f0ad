//! What goes wrong in the lines of a shift.
use shift::Expected;
use std::error::Error;
use std::fmt;

/// What was expected of a line.
#[derive(Clone, Copy, PartialEq, Eq, Debug)]
pub enum Fault {
    Step(Expected),
    PoolsFirst,
    PoolsTooLarge,
    PoolsAgain,
    ThirdMachine,
    NoMachine,
}

impl fmt::Display for Fault {
    fn fmt<W: fmt::Write>(&self, f: &mut fmt::Formatter<W>) -> fmt::Result {
        match self {
            Fault::Step(expected) => write!(f, "{expected}"),
            Fault::PoolsFirst => f.write_str("pools P Q as the first step"),
            Fault::PoolsTooLarge => f.write_str("pools of at most 4096 slots"),
            Fault::PoolsAgain => f.write_str("pools only as the first step"),
            Fault::ThirdMachine => f.write_str("one of the two machines that came before"),
            Fault::NoMachine => f.write_str("machine M before the first mark"),
        }
    }
}

/// A line that ends the shift.
#[derive(Clone, Copy, PartialEq, Eq, Debug)]
pub struct BadLine {
    pub line: usize,
    pub fault: Fault,
}

impl fmt::Display for BadLine {
    fn fmt<W: fmt::Write>(&self, f: &mut fmt::Formatter<W>) -> fmt::Result {
        let BadLine { line, fault } = self;
        write!(f, "line {line}: expected {fault}")
    }
}

impl Error for BadLine {}
