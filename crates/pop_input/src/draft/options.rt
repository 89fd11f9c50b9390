//! The words of the section Option.
ghost use Rattle.std.specs.Prelude.{◌≡◌, ◌≤◌, ◌<◌, length, None, Some};
ghost use Rattle.pop_input.specs.Drafts.{Within, expected_by, draft_by, switches_with};
ghost use Rattle.pop_input.specs.WordFaults.{role_fault};
ghost use Rattle.pop_input.specs.declared.names.Section.TheVariants.{Options};

use crate::draft::Draft;
use crate::fault_kind::FaultKind;
use crate::names::{OptionWord, option_of};
use crate::short_word::ShortWord;

impl Draft {
    /// Reads a word of the section Option, and returns its fault, if any.
    pub(crate) fn read_option(&mut self, word: &ShortWord<'_>) -> Option<FaultKind>
        ensures fault { result ≡ role_fault self.old (Within (Some Options)) word.now }
        ensures draft { result ≡ None → self.new
            ≡ draft_by (Within (Some Options)) self.old word.now }
    {
        match option_of(word.bytes()) {
            Some(option) => {
                self.apply(option);
                None
            }
            None => Some(FaultKind::WordMisplaced),
        }
    }

    // Sets an option without a value, or notes which value the option expects.
    fn apply(&mut self, option: OptionWord)
        ensures { self.new ≡ record self.old {
          context = record {
            section = self.old.context.section;
            expected = expected_by (Some option);
          };
          switches = switches_with (Some option) self.old.switches;
        } }
    {
        self.context.expected = None;
        match option {
            OptionWord::SetPlay => self.switches.set_play = true,
            OptionWord::Variation => self.switches.variation = true,
            OptionWord::NoBoard => self.switches.no_board = true,
            OptionWord::Expects(expected) => self.context.expected = Some(expected),
        }
    }
}
