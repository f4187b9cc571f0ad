//! The lines of a shift, with their numbers.
ghost use Rattle.std.specs.Prelude.{◌≡◌, IfOk};
ghost use Rattle.shift.specs.Lines.{Says};

use crate::fault::{BadLine, Fault};
use shift::{Step, read_step};
use std::fmt;

/// A line: its number, which counts from 1, and its text.
#[derive(Clone, Copy)]
pub struct Line<'a> {
    pub number: usize,
    pub text: &'a str,
}

impl<'a> Line<'a> {
    /// The step that it says.
    pub(super) fn step(&self) -> Result<Step, BadLine>
        ensures { IfOk result (λ step. Says self.now.text.now step) }
    {
        read_step(self.text.as_bytes()).map_err(|e| self.bad(Fault::Step(e)))
    }

    /// The error of this line.
    pub(super) fn bad(&self, fault: Fault) -> BadLine
        ensures line { result.line ≡ self.now.number }
        ensures fault { result.fault ≡ fault }
    {
        BadLine {
            line: self.number,
            fault,
        }
    }
}

impl<'a> fmt::Display for Line<'a> {
    fn fmt<W: fmt::Write>(&self, f: &mut fmt::Formatter<W>) -> fmt::Result {
        let Line { number, text } = self;
        write!(f, "line {number}: {text}")
    }
}
