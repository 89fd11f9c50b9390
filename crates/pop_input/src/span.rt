//! Where a fault is found.
ghost use Rattle.std.specs.Prelude.{◌≡◌};
ghost use Rattle.pop_input.specs.ties.Spans.{span_by};

use crate::item::Fault;

/// A range of bytes of an input, by offsets from its first byte. It is empty where the input ends or is cut.
#[derive(Clone, Copy, Debug, PartialEq, Eq)]
pub struct Span {
    /// The number of bytes before the range.
    pub start: u32,
    /// The number of bytes up to its end.
    pub end: u32,
}

impl Span {
    /// Returns this span if the block has a fault already, else the other.
    pub(crate) fn after(self, fault: Option<Fault>, here: Span) -> Span
        ensures { result ≡ span_by fault self here }
    {
        match fault {
            Some(_) => self,
            None => here,
        }
    }
}
