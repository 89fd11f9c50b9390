//! Laws of the definitions: functions that do nothing, each with a law as its contract.
ghost use Rattle.pop_tries.specs.Laws.{FirstMovesAreKeysOrTries, EachIsKeyOrTryOrHasMore, KeysHaveNoRefutations, NoEventComesTwice, RefutationsAreDefences, StalemateRefutes};

/// States that a first move is a key exactly if it has no refutations, where it doesn't reach the goal and
/// Black has a reply.
pub fn keys_have_no_refutations()
    ensures { KeysHaveNoRefutations }
{}

/// States that a first move is a key, or a try with at most a given number of refutations, or has more of
/// them, where it doesn't reach the goal and Black has a reply.
pub fn each_is_key_or_try_or_has_more()
    ensures { EachIsKeyOrTryOrHasMore }
{}

/// States that a first move that stalemates in a direct mate is a try, if a try may have a refutation.
pub fn stalemate_refutes()
    ensures { StalemateRefutes }
{}

/// States that each refutation is a defence against the threats.
pub fn refutations_are_defences()
    ensures { RefutationsAreDefences }
{}

/// States that each of a problem's first moves is a key or a try, if tries may have as many refutations as
/// Black has replies. Moves after which Black has no reply aren't counted.
pub fn first_moves_are_keys_or_tries()
    ensures { FirstMovesAreKeysOrTries }
{}

/// States that no event of the play comes twice.
pub fn no_event_comes_twice()
    ensures { NoEventComesTwice }
{}
