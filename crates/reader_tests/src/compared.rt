//! Comparison of the reader with the plain reader.
ghost use Rattle.std.specs.Prelude.{◌<◌};

use crate::plain::{ITEMS, items};
use crate::summary::{Expected, compute};
use arrayvec::ArrayVec;
use pop_input::{Item, Last, Reader};
use pop_text::TrialSource;

// Returns the items that the reader reads of an input, from a source of at most `at_most` bytes a call, which may fail
// at the end.
fn read(input: &[u8], at_most: usize, failed: bool) -> ArrayVec<Expected, ITEMS>
    requires { 0 < at_most }
{
    let fails_at = if failed { Some(input.len()) } else { None };
    let mut source = TrialSource::new(input, at_most, fails_at);
    let mut reader = Reader::new();
    let mut items = ArrayVec::new();
    let mut last = false;
    for _round in 0..ITEMS {
        let item = reader.next_problem(&mut source);
        match item {
            Item::End => break,
            Item::Sound(_, Last::Yes) | Item::Faulty(_, Last::Yes) => {
                if last {
                    break;
                }
                last = true;
            }
            _ => {
                if last {
                    break;
                }
            }
        }
        if let Some(reported) = compute(&item) {
            let _ = items.try_push(reported);
        }
    }
    items
}

/// Returns whether the two readers find equal items, for a clean end of the input and for a source that
/// fails there.
pub(crate) fn agree(input: &[u8], at_most: usize) -> bool
    requires { 0 < at_most }
{
    read(input, at_most, false).as_slice() == items(input, false).as_slice()
        && read(input, at_most, true).as_slice() == items(input, true).as_slice()
}

/// How many kinds of items there are: a sound problem, and the faults 1 to 21.
pub(crate) const ITEM_KINDS: usize = 22;

/// Marks the numbers of the faults of an input, and 0 if it has a sound problem.
pub(crate) fn mark(input: &[u8], failed: bool, seen: &mut [bool; ITEM_KINDS]) {
    for reported in items(input, failed).as_slice() {
        match reported {
            Expected::Sound(_) => seen[0] = true,
            Expected::Faulty(number, _) => {
                let number = *number as usize;
                if number < ITEM_KINDS {
                    seen[number] = true;
                }
            }
        }
    }
}
