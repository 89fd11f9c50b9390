//! The battle of a problem.
ghost use Rattle.std.specs.Prelude.{◌≡◌};

use pop_battle::Aim;
use pop_stipulation::{Battle, Stipulation};

/// A battle with its stipulation, which says how many half-moves it has.
#[derive(Clone, Copy, Debug)]
pub(crate) struct Contest {
    pub battle: Battle,
    pub stipulation: Stipulation,
}

impl Contest {
    /// Returns the battle and its goal, without the number of moves.
    pub(crate) fn aim(self) -> Aim
        ensures battle { result.battle ≡ self.battle }
        ensures goal { result.goal ≡ self.stipulation.goal }
    {
        Aim {
            battle: self.battle,
            goal: self.stipulation.goal,
        }
    }
}
