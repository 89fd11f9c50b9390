//! Runs with tries: reads all problems of an input and writes their keys, tries and refutations.
//!
//! ```rust
//! use pop_run::{Choice, Status};
//! use pop_text::{TrialSink, TrialSource};
//! use pop_tries_run::report_tries;
//!
//! let choice = Choice { check: false, no_board: true };
//! let text = b"BeginProblem Pieces White Kg6 Ra1 Black Kg8 Stipulation h#0.5 EndProblem";
//! let mut source = TrialSource::new(text, 4096, None);
//! let mut sink = TrialSink::<64>::new(64, None);
//! let status = report_tries(choice, 1, &mut source, &mut sink);
//! assert!(rt; status == Status::Sound);
//! assert!(rt; sink.text() == b"problem 1\nh#0.5\nno tries in help play\n\n".as_slice());
//! ```
//!
//! The interface is `report_tries`, and `TriesWriter` for sessions. `specs/Report.antt` defines the text. No call
//! allocates.
#![tactic(auto)]

mod tries_writer;
mod whole_run;

pub use pop_tries::MOST_REFUTATIONS;
pub use tries_writer::TriesWriter;
pub use whole_run::report_tries;
