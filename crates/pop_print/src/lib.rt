//! The layout of the report: writes heads, events and faults to a sink.
//!
//! ```rust
//! use pop_events::{Event, Phase};
//! use pop_print::print_event;
//! use pop_text::TrialSink;
//!
//! let mut sink = TrialSink::<64>::new(64, None);
//! print_event(&mut sink, &Event::Phase(Phase::Set))?;
//! print_event(&mut sink, &Event::Total { count: 1, stopped: false })?;
//! assert!(rt; sink.text() == b"set\nsolutions: 1\n".as_slice());
//! ```
//!
//! The interface is `print_head`, `print_event`, `print_try_event`, `print_fault` and `print_checked`, and the module
//! `line`, which pop_parts uses too. Each function puts whole lines together in a buffer of fixed size and then hands
//! them to the sink. No call allocates. `specs/` define the texts, one file for each module.
#![tactic(auto)]

mod events;
mod faults;
mod heads;
pub mod line;
mod moves;
mod notation;
mod tries;

pub use events::print_event;
pub use faults::print_fault;
pub use heads::{print_checked, print_head};
pub use tries::print_try_event;
