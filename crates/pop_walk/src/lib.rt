//! The walk through the phases of a problem, which the searches of `pop_solve`, `pop_parts` and `pop_tries`
//! share: set play and the play, each walked whole or after a beginning of moves, on one board with explicit
//! frames.
//!
//! ```rust
//! use pop_events::Phase;
//! use pop_input::{Item, Reader};
//! use pop_text::TrialSource;
//! use pop_walk::phases::phase_half_moves;
//!
//! let text = b"BeginProblem Pieces White Kg6 Ra1 Black Kg8 Stipulation #1 EndProblem";
//! let mut source = TrialSource::new(text, 4096, None);
//! if let Item::Sound(problem, _) = Reader::new().next_problem(&mut source) {
//!     assert!(rt; phase_half_moves(&problem, Phase::Play) == 1);
//! }
//! ```
//!
//! The interface is the phase: `phases` (`advance` returns the next event of a search) and `beginning`, which
//! begins the search of a phase after given moves. `pop_tries` also walks what follows a first move by the
//! functions of `mode`, `walk` and `showing`. No call allocates.
#![tactic(auto)]

pub mod beginning;
mod guess;
pub mod mode;
pub mod phases;
mod reach;
pub mod showing;
pub mod walk;
