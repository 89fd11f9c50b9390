//! What a search looks for: the battle and its goal.
use pop_stipulation::{Battle, Goal};

/// What White wants in a battle: the kind of battle, and its goal.
#[derive(Clone, Copy, Debug)]
pub struct Aim {
    pub battle: Battle,
    pub goal: Goal,
}
