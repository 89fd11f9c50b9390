//! What a chess problem asks for: who starts, who helps, the goal, and the number of moves.
//!
//! ```rust
//! use pop_stipulation::{Form, Goal, Stipulation};
//!
//! let helpmate = Stipulation { form: Form::Help, goal: Goal::Mate, n: 2 };
//! assert!(rt; helpmate.half_moves() == 4);
//! ```
//!
//! `specs/Stipulations.antt` defines what each stipulation means. No call allocates.
#![tactic(auto)]

mod stipulation;

pub use stipulation::{Battle, Form, Goal, MOST_FRAMES, MOST_HALF_MOVES, MOST_MOVES, Stipulation};
