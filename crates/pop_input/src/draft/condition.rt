//! The words of the section Condition.
ghost use Rattle.std.specs.Prelude.{◌≡◌, ◌≤◌, ◌<◌, length, None, Some};
ghost use Rattle.pop_input.specs.Drafts.{Within, draft_by};
ghost use Rattle.pop_input.specs.WordFaults.{role_fault};
ghost use Rattle.pop_input.specs.declared.names.Section.TheVariants.{Condition as Conditions};

use crate::draft::Draft;
use crate::fault_kind::FaultKind;
use crate::names::condition_of;
use crate::short_word::ShortWord;

impl Draft {
    /// Reads a word of the section Condition, and returns its fault, if any.
    pub(crate) fn read_condition(&mut self, word: &ShortWord<'_>) -> Option<FaultKind>
        ensures fault { result ≡ role_fault self.old (Within (Some Conditions)) word.now }
        ensures draft { result ≡ None → self.new
            ≡ draft_by (Within (Some Conditions)) self.old word.now }
    {
        match condition_of(word.bytes()) {
            Some(condition) => {
                if self.condition.is_some() {
                    return Some(FaultKind::SecondCondition);
                }
                self.condition = Some(condition);
                self.context.expected = None;
                None
            }
            None => Some(FaultKind::WordMisplaced),
        }
    }
}
