//! Laws of the definitions: functions that do nothing, each with a law as its contract.
ghost use Rattle.pop_solve.specs.Laws.{NoPathComesTwice};

/// States that no path comes twice in a phase: no two lines of help play are equal, and no two nodes of
/// battle play have the same moves. It holds for all rules, every problem and any limit of solutions.
pub fn no_path_comes_twice()
    ensures { NoPathComesTwice }
{}
