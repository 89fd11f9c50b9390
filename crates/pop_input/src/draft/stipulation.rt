//! The words of the section Stipulation.
ghost use Rattle.std.specs.Prelude.{◌≡◌, ◌≤◌, ◌<◌, length, None, Some};
ghost use Rattle.pop_input.specs.Drafts.{Within, draft_by};
ghost use Rattle.pop_input.specs.WordFaults.{role_fault};
ghost use Rattle.pop_input.specs.declared.names.Section.TheVariants.{Stipulation as Stipulations};

use crate::draft::Draft;
use crate::fault_kind::FaultKind;
use crate::short_word::ShortWord;
use crate::values::stipulation_of;

impl Draft {
    /// Reads a word of the section Stipulation, and returns its fault, if any.
    pub(crate) fn read_stipulation(&mut self, word: &ShortWord<'_>) -> Option<FaultKind>
        ensures fault { result ≡ role_fault self.old (Within (Some Stipulations)) word.now }
        ensures draft { result ≡ None → self.new
            ≡ draft_by (Within (Some Stipulations)) self.old word.now }
    {
        if self.stipulation.is_some() {
            let word = word.bytes();
            return if word.contains(&b'#') || word.contains(&b'=') {
                Some(FaultKind::SecondStipulation)
            } else {
                Some(FaultKind::WordMisplaced)
            };
        }
        match stipulation_of(word.bytes()) {
            Some(stipulation) => {
                self.stipulation = Some(stipulation);
                self.context.expected = None;
                None
            }
            None => Some(FaultKind::BadStipulation),
        }
    }
}
