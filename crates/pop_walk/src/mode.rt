//! What a search walks and shows.
ghost use Rattle.std.specs.Prelude.{◌≡◌};
ghost use Rattle.pop_walk.specs.ties.Modes.{mode_of};

use pop_input::Problem;
use pop_stipulation::{Battle, Goal};

/// What a search walks: a battle or help play, the goal, and what is shown of a battle.
#[derive(Clone, Copy)]
pub struct Mode {
    /// `None` in help play.
    pub battle: Option<Battle>,
    pub goal: Goal,
    /// Whether a battle shows the defences and what follows them. Help play ignores it.
    pub variation: bool,
}

impl Mode {
    /// Returns how a problem is walked: its battle and goal, and whether it has the option Variation.
    pub fn of(problem: &Problem) -> Mode
        ensures { result ≡ mode_of problem.now }
    {
        let stipulation = problem.stipulation();
        Mode {
            battle: stipulation.form.battle(),
            goal: stipulation.goal,
            variation: problem.variation(),
        }
    }
}
