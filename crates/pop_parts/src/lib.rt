//! The parts of the phases of an input's problems: how many there are, and the solutions of chosen ones.
//!
//! ```rust
//! use pop_parts::list_parts;
//! use pop_text::{TrialSink, TrialSource};
//!
//! let text = b"BeginProblem Pieces White Kg6 Ra1 Black Kg8 Stipulation #1 EndProblem";
//! let mut source = TrialSource::new(text, 4096, None);
//! let mut sink = TrialSink::<4096>::new(4096, None);
//! // In help play two moves would distinguish the parts; in a direct mate the key does.
//! let _status = list_parts(2, &mut source, &mut sink);
//! assert!(rt; sink.text() == b"1: play 19\n".as_slice());
//! ```
//!
//! The interface is what the root re-exports.
#![tactic(auto)]

mod beginnings;
mod items;
mod list;
mod part_search;
mod remaining_parts;
mod request;
mod searching;
mod show;

pub use beginnings::count_parts;
pub use list::list_parts;
pub use part_search::PartSearch;
pub use request::{Outcome, PartRequest};
pub use show::show_parts;
