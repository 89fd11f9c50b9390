//! The search for the solutions of a chess problem: help play, direct mate and selfmate on one board with
//! explicit frames.
//!
//! ```rust
//! use chess_rules::Orthodox;
//! use pop_input::{Item, Reader};
//! use pop_solve::{Event, Search};
//! use pop_text::TrialSource;
//!
//! let text = b"BeginProblem Pieces White Kg6 Ra1 Black Kg8 Stipulation #1 EndProblem";
//! let mut source = TrialSource::new(text, 4096, None);
//! let mut keys = 0u64;
//! if let Item::Sound(problem, _) = Reader::new().next_problem(&mut source) {
//!     // One half-move needs two frames; a problem without a condition needs `Orthodox`.
//!     let mut search = Search::<Orthodox, 2>::new(&problem);
//!     while let Some(event) = search.next() {
//!         match event {
//!             Event::Node { depth: 0, .. } => keys += 1,
//!             _ => {}
//!         }
//!     }
//! }
//! assert!(rt; keys == 1);
//! ```
//!
//! The items re-exported at the root are the interface. `pop_walk` has the walk through the phases, which
//! `pop_parts` and `pop_tries` share. No call allocates.
#![tactic(auto)]

mod laws;
mod pruned_search;
mod search;

pub use laws::no_path_comes_twice;
pub use pop_battle::Frame;
pub use pop_events::{Event, Mark, Phase, Shown, Side};
pub use pruned_search::PrunedSearch;
pub use search::Search;
