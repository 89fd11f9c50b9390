//! The items of an input.
ghost use Rattle.std.specs.Prelude.{◌≡◌, ◌≤◌, Some};
ghost use Rattle.pop_input.specs.FaultKinds.{fault_at, number_of};

use crate::fault_kind::FaultKind;
use crate::problem::Problem;
use std::fmt;

/// Why an item isn't sound, and where.
#[derive(Clone, Copy, Debug)]
pub struct Fault {
    /// What is wrong.
    pub kind: FaultKind,
    /// The line at fault, counted from 1.
    pub line: u64,
}

impl Fault {
    /// Returns a fault of this kind in a line.
    pub(crate) fn at(kind: FaultKind, line: u64) -> Fault
        ensures { result ≡ fault_at kind line }
    {
        Fault { kind, line }
    }

    /// Returns the number of its kind, 1 to 21.
    pub fn number(&self) -> u8
        ensures value { result ≡ number_of self.now.kind }
        ensures least { 1 ≤ result }
        ensures most { result ≤ 21 }
    {
        self.kind.number()
    }
}

/// Writes what a report says of it, such as `line 4: fault 17: side to be mated has no king`.
impl fmt::Display for Fault {
    ghost use Rattle.pop_input.specs.FaultKinds.{fault_line};

    ghost output = { λ fault. Some (fault_line fault) };

    fn fmt<W: fmt::Write>(&self, f: &mut fmt::Formatter<W>) -> fmt::Result {
        let (line, number, kind) = (self.line, self.number(), self.kind);
        write!(f, "line {line}: fault {number}: {kind}")
    }
}

/// Whether an item is the last one of its input.
#[derive(Clone, Copy, Debug, PartialEq, Eq)]
pub enum Last {
    /// EndProblem closes it, or the input ends or is cut in it.
    Yes,
    /// NextProblem closes it, or it is a fault and the input is cut later in its problem.
    No,
}

/// What a `Reader` returns: a problem, a fault, or the end of the items.
#[derive(Clone, Copy)]
pub enum Item {
    /// A problem without a fault.
    Sound(Problem, Last),
    /// The first fault of a problem; or fault 20 or 21, where the input is cut in a problem that already has a fault.
    Faulty(Fault, Last),
    /// There are no more items.
    End,
}
