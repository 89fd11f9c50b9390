//! The list of an input's faults, each with its span, the bytes where it is found.
//!
//! ```rust
//! use pop_faults::list_faults;
//! use pop_text::{TrialSink, TrialSource};
//!
//! let text = b"BeginProblem Pieces White Kg6 Rg6 Black Kg8 Stipulation #1 EndProblem";
//! let mut source = TrialSource::new(text, 4096, None);
//! let mut sink = TrialSink::<4096>::new(4096, None);
//! let _status = list_faults(&mut source, &mut sink);
//! assert!(rt; sink.text() == b"1: fault 5, line 1, bytes 30 up to 33\n".as_slice());
//! ```
//!
//! The interface is `list_faults`. `specs/FaultList.antt` defines the text of the list, `specs/ties/FaultRuns.antt`
//! what the call does, by the spans of `pop_input`.
#![tactic(auto)]

mod listing;

pub use listing::list_faults;
