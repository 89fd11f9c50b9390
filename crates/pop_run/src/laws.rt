//! Laws of the definitions: functions that do nothing, each with a law as its contract.
ghost use Rattle.pop_run.specs.Laws.{NoNeighbourChangesAText};

/// States that no neighbour changes an item's text.
///
/// The text depends on the words and text lines of the item's own block, the numbers of their lines, the item's number
/// and the settings; if no word closes the block, also on the input's end.
pub fn no_neighbour_changes_a_text()
    ensures { NoNeighbourChangesAText }
{}
