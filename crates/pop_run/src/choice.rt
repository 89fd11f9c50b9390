//! The settings that a report depends on.
ghost use Rattle.std.specs.Prelude.{◌≡◌};
ghost use Rattle.pop_run.specs.Report.{choice_of};

use crate::item_writer::ItemWriter;
use crate::play_writer::print_sound;
use crate::solutions::SolutionsWriter;
use pop_input::{Fault, Problem};
use pop_print::print_fault;
use pop_text::{Sink, SinkFault};
use run_settings::Settings;

/// The settings that a report depends on: two flags. Callers without an allocator can make a `Choice`, since it owns no
/// text.
#[derive(Clone, Copy, Debug)]
pub struct Choice {
    /// Whether to only read and test the problems, without solving them.
    pub check: bool,
    /// Whether to leave the boards out.
    pub no_board: bool,
}

impl Choice {
    /// Returns the two flags of the settings.
    pub fn of(settings: &Settings) -> Choice
        ensures { result ≡ choice_of settings.now }
    {
        Choice {
            check: settings.check,
            no_board: settings.no_board,
        }
    }
}

impl ItemWriter for Choice {
    ghost use Rattle.pop_run.specs.Report.{entry_text};

    ghost text = { entry_text };

    fn write_sound<W: Sink>(
        &self,
        sink: &mut W,
        number: u64,
        problem: &Problem,
    ) -> Result<(), SinkFault> {
        print_sound(&SolutionsWriter, sink, number, problem, *self)
    }

    #[tactic(auto, unfolding(crate::specs::Report::entry_text_by))]
    fn write_fault<W: Sink>(
        &self,
        sink: &mut W,
        number: u64,
        fault: &Fault,
    ) -> Result<(), SinkFault> {
        print_fault(sink, number, fault)
    }
}
