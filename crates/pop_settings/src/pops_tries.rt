//! The settings of `pops-tries`.
pub mod chosen;
pub mod command_line;

pub use chosen::Settings;
pub use command_line::settings;
