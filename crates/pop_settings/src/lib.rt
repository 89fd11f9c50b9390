//! The command lines of `pops`, `pops-part` and `pops-tries`: reads their settings with `clap`.
//!
//! ```rust
//! use pop_settings::settings;
//!
//! let settings = settings(alloc, &["pops", "--check", "mate.pop"])?;
//! assert!(rt; settings.check && !settings.no_board);
//! assert!(rt; settings.file.is_some());
//! ```
//!
//! The interface is `settings` with `Settings` and `ArgFault` for `pops`, and the modules `pops_part` and `pops_tries`.
//! `specs/` define the command lines by clap's own definitions. Only `settings` allocates.
#![tactic(auto)]

mod arg_fault;
mod commands;
mod pops;
pub mod pops_part;
pub mod pops_tries;

pub use arg_fault::ArgFault;
pub use pops::command_line::settings;
pub use run_settings::Settings;
