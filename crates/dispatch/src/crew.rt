//! The two machines of a shift.
ghost use Rattle.std.specs.Prelude.{◌≡◌, ◌⊎◌, ◌≢◌, Some, None, OnOk, OnErr};
ghost use Rattle.dispatch.specs.declared.crew.Seat.TheVariants.{First, Second};

use crate::fault::Fault;

/// One of the two machines, by the order in which they came.
#[derive(Clone, Copy, PartialEq, Eq, Debug)]
pub enum Seat {
    First,
    Second,
}

/// The machines' numbers, and whose marks follow. At first no machine is there.
#[derive(Clone, Copy, Default)]
pub struct Crew {
    first: Option<u64>,
    second: Option<u64>,
    present: Option<Seat>,
}

impl Crew {
    /// Machine m's marks follow, unless two others are there already.
    pub(super) fn seat(&mut self, m: u64) -> Result<(), Fault>
        ensures seated { OnOk result (((self.new.first ≡ Some m) × (self.new.present ≡ Some First)) ⊎ ((self.new.second ≡ Some m) × (self.new.present ≡ Some Second))) }
        ensures third { OnErr result ((self.old.first ≢ Some m) × (self.old.second ≢ Some m) × (self.old.first ≢ None) × (self.old.second ≢ None) × (self.new.present ≡ self.old.present)) }
    {
        let seat = if *self.first.get_or_insert(m) == m {
            Seat::First
        } else if *self.second.get_or_insert(m) == m {
            Seat::Second
        } else {
            return Err(Fault::ThirdMachine);
        };
        self.present = Some(seat);
        Ok(())
    }

    /// Whose marks follow, once a machine is there.
    pub(super) fn present(&self) -> Option<Seat>
        ensures { result ≡ self.now.present }
    {
        self.present
    }
}
