//! The search for the keys and tries of a battle problem, and for what follows each: the threats or
//! zugzwang, the defences, and the refutations of a try.
//!
//! ```rust
//! use chess_rules::Orthodox;
//! use pop_input::{Item, MOST_FRAMES, Reader};
//! use pop_text::TrialSource;
//! use pop_tries::{TriesSearch, TryEvent};
//!
//! let text = b"BeginProblem Pieces White Kg6 Ra1 Black Kg8 Stipulation #1 EndProblem";
//! let mut source = TrialSource::new(text, 4096, None);
//! if let Item::Sound(problem, _) = Reader::new().next_problem(&mut source) {
//!     // For the proof: a problem that was read has fewer half-moves than `MOST_FRAMES`.
//!     problem.show_sound();
//!     let mut search = TriesSearch::<Orthodox, MOST_FRAMES>::new(&problem, 1);
//!     assert!(rt; matches!(search.next(), Some(TryEvent::Keys)));
//!     assert!(rt; matches!(search.next(), Some(TryEvent::Key(_))));
//! }
//! ```
//!
//! The interface is `TriesSearch`, which returns its events one by one, and the laws of the definitions: functions
//! that do nothing, each with a law as its contract. No call allocates.
#![tactic(auto)]

mod below;
mod below_first;
mod contest;
mod desk;
mod few_places;
mod first_moves;
mod group;
mod kept_tries;
mod laws;
mod move_set;
mod progress;
mod refuting;
mod replies;
mod search;
mod set_play;
mod shown;
mod threats;

pub use laws::{
    each_is_key_or_try_or_has_more, first_moves_are_keys_or_tries, keys_have_no_refutations,
    no_event_comes_twice, refutations_are_defences, stalemate_refutes,
};
pub use pop_events::TryEvent;
pub use progress::MOST_REFUTATIONS;
pub use search::TriesSearch;
