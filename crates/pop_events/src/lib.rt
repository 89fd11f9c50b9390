//! What a search returns: events, and moves with everything that their text says.
//!
//! ```rust
//! use pop_events::Event;
//!
//! fn begins_solution(event: &Event) -> bool {
//!     matches!(event, Event::Line { .. } | Event::Node { depth: 0, .. })
//! }
//! ```
//!
//! The interface is `Event`, `Phase`, `TryEvent`, `Shown`, `Mark` and `Side`. `specs/Shown.antt` defines what is shown
//! of a move.
#![tactic(auto)]

mod event;
mod shown;
mod try_event;

pub use event::{Event, Phase};
pub use shown::{Mark, Shown, Side};
pub use try_event::TryEvent;
