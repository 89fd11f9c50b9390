//! The settings of `pops-part`.
pub mod command_line;
pub mod values;
pub mod wanted;

pub use command_line::settings;
pub use wanted::{NamedParts, PhaseName, Settings, Wanted};
