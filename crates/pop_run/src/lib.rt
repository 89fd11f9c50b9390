//! Runs: reads all problems of an input and writes their report.
//!
//! ```rust
//! use pop_run::{Choice, Status, run_with};
//! use pop_text::{TrialSink, TrialSource};
//!
//! let choice = Choice { check: true, no_board: true };
//! let text = b"BeginProblem Pieces White Kg6 Ra1 Black Kg8 Stipulation #1 EndProblem\n";
//! let mut source = TrialSource::new(text, 4096, None);
//! let mut sink = TrialSink::<64>::new(64, None);
//! let status = run_with(choice, &mut source, &mut sink);
//! assert!(rt; status == Status::Sound);
//! assert!(rt; sink.text() == b"problem 1\n#1\nsound\n\n".as_slice());
//! ```
//!
//! The interface is `run` and `Session`, which reports one item a call, with `Settings`, `Choice`, `Status` and
//! `Step`. `run_with` and `Session::with` write items in the way of an `ItemWriter`, `print_sound` a sound problem with
//! the play of a `PlayWriter`.
//! `specs/Report.antt` defines the report, `specs/Run.antt` what a run does. No call allocates.
#![tactic(auto)]

mod choice;
mod item_writer;
mod laws;
mod play_writer;
mod session;
mod solutions;
mod status;
mod whole_run;

pub use choice::Choice;
pub use item_writer::ItemWriter;
pub use laws::no_neighbour_changes_a_text;
pub use play_writer::{PlayWriter, print_sound};
pub use run_settings::Settings;
pub use session::Session;
pub use status::{
    EXIT_DEVICE_FAILED, EXIT_FAULTY, EXIT_OUT_OF_MEMORY, EXIT_REFUSED, EXIT_SOUND, Status, Step,
};
pub use whole_run::{run, run_with};
