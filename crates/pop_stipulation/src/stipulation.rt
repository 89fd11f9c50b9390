//! Stipulations.
ghost use Rattle.std.specs.Prelude.{◌≡◌};
ghost use Rattle.pop_stipulation.specs.Stipulations.{battle_of, first_half, goal_side, half_moves, is_for_stalemate, is_help, starting_side};

use chess_core::Colour;

/// Who starts, who helps, and which side is to be mated or stalemated (Codex; spelling of the Popeye manual). Below,
/// `#` stands for either goal.
#[derive(Clone, Copy, Debug, PartialEq, Eq)]
pub enum Form {
    /// `#n`: White starts and reaches the goal against every defence.
    Direct,
    /// `s#n`: White starts and forces Black to reach the goal against White.
    SelfMate,
    /// `h#n`: Black starts, both sides help, and White reaches the goal with the last move.
    Help,
    /// `h#n.5`: White starts with one half-move, and help play of n moves follows.
    HelpHalf,
}

/// Which side is to reach the goal of a battle (Codex).
#[derive(Clone, Copy, Debug, PartialEq, Eq)]
pub enum Battle {
    /// White reaches the goal against every defence.
    Direct,
    /// White forces Black to reach the goal.
    SelfMate,
}

/// What the last move must do to the goal side.
#[derive(Clone, Copy, Debug, PartialEq, Eq)]
pub enum Goal {
    /// `#`: mate, which is check without a legal move (FIDE Laws 5.1.1).
    Mate,
    /// `=`: stalemate, which is no legal move without check (FIDE Laws 5.2.1).
    Stalemate,
}

/// The greatest number of moves of a stipulation (own).
pub const MOST_MOVES: u8 = 16;

/// The greatest number of half-moves of a play: two for each move.
pub const MOST_HALF_MOVES: usize = 2 * MOST_MOVES as usize;

/// The most frames of a search: one for each half-move, and one after the last.
pub const MOST_FRAMES: usize = MOST_HALF_MOVES + 1;

/// A form, a goal and a number of moves: 1 to 16, for `HelpHalf` 0 to 15.
#[derive(Clone, Copy, Debug)]
pub struct Stipulation {
    pub form: Form,
    pub goal: Goal,
    /// The number of moves, without the `.5` of `h#n.5`.
    pub n: u8,
}

impl Goal {
    /// Returns whether the goal is stalemate, and not mate.
    pub fn is_for_stalemate(self) -> bool
        ensures { result ≡ is_for_stalemate self }
    {
        match self {
            Goal::Mate => false,
            Goal::Stalemate => true,
        }
    }
}

impl Form {
    /// Returns the battle of the form, in which White pursues an aim against every defence, or `None` if both
    /// sides help.
    pub fn battle(self) -> Option<Battle>
        ensures { result ≡ battle_of self }
    {
        match self {
            Form::Direct => Some(Battle::Direct),
            Form::SelfMate => Some(Battle::SelfMate),
            Form::Help | Form::HelpHalf => None,
        }
    }

    /// Returns whether both sides help: the form has no battle.
    pub fn is_help(self) -> bool
        ensures { result ≡ is_help self }
    {
        self.battle().is_none()
    }

    /// Returns the number of the first half-move: 1, or 2 if White starts help play, so that Black's half of the first
    /// move is left out.
    pub fn first_half(self) -> u32
        ensures { result ≡ first_half self }
    {
        match self {
            Form::Direct | Form::SelfMate | Form::Help => 1,
            Form::HelpHalf => 2,
        }
    }

    /// Returns the side that makes the first half-move.
    pub fn starting_side(self) -> Colour
        ensures { result ≡ starting_side self }
    {
        match self {
            Form::Help => Colour::Black,
            Form::Direct | Form::SelfMate | Form::HelpHalf => Colour::White,
        }
    }

    /// Returns the side that is mated or stalemated.
    pub fn goal_side(self) -> Colour
        ensures { result ≡ goal_side self }
    {
        match self {
            Form::SelfMate => Colour::White,
            Form::Direct | Form::Help | Form::HelpHalf => Colour::Black,
        }
    }
}

impl Stipulation {
    /// Returns the number of half-moves of the play: at most 32.
    pub fn half_moves(self) -> usize
        ensures { result ≡ half_moves self }
    {
        let n = self.n as usize;
        match self.form {
            Form::Direct => (2 * n).saturating_sub(1),
            Form::SelfMate | Form::Help => 2 * n,
            Form::HelpHalf => 2 * n + 1,
        }
    }
}
