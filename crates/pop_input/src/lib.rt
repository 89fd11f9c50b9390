//! A reader of chess problems: turns an input into problems and faults, one item a call.
//!
//! The input language is a part of Popeye's (Popeye manual); the faults are this project's own.
//!
//! ```rust
//! use pop_input::{Item, Reader};
//! use pop_text::TrialSource;
//!
//! // The second problem has no men.
//! let text = b"BeginProblem Pieces White Kg6 Ra1 Black Kg8 Stipulation #1
//!     NextProblem Stipulation #2 EndProblem";
//! let mut source = TrialSource::new(text, 4096, None);
//! let mut reader = Reader::new();
//! let mut sound = 0u64;
//! let mut faulty = 0u64;
//! loop {
//!     match reader.next_problem(&mut source) {
//!         Item::Sound(_problem, _) => sound += 1,
//!         Item::Faulty(_fault, _) => faulty += 1,
//!         Item::End => break,
//!     }
//! }
//! assert!(rt; sound == 1 && faulty == 1);
//! ```
//!
//! The interface is what the root re-exports, and `under_condition!`, which selects the rules of a condition. The module
//! `block` holds one problem while it is read, `draft` what its words say so far, and `names` and `values` read single
//! words.
//!
//! `specs/Blocks.antt` defines the items: it cuts all words of the input into blocks, one a problem, and reads each
//! block by itself. A `Problem` can always be set up and solved. No call allocates.
#![tactic(auto)]

mod block;
mod condition;
mod context;
mod draft;
mod fault_kind;
mod item;
mod names;
mod problem;
mod reader;
mod short_word;
mod span;
mod switches;
mod token;
mod values;

pub use crate::condition::{Circe, Condition, Madrasi, Orthodox};
pub use crate::fault_kind::{FaultKind, LONGEST_MESSAGE};
pub use crate::item::{Fault, Item, Last};
pub use crate::problem::Problem;
pub use crate::reader::{Next, Reader};
pub use crate::span::Span;
pub use pop_stipulation::{Form, Goal, MOST_FRAMES, MOST_MOVES, Stipulation};
