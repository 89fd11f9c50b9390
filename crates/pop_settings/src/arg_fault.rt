//! The faults of command lines.
ghost use Rattle.std.specs.Prelude.{◌≡◌};
ghost use Rattle.clap.specs.Values.{kind_of};
ghost use Rattle.pop_settings.specs.Commands.{reported_of};

use clap::Error;
use clap::error::ErrorKind;
use std::fmt;

/// Why a command line has no settings.
#[derive(Clone, Copy, Debug)]
pub enum ArgFault {
    /// The command line has no form that the program knows.
    Usage,
    /// There was too little memory to read the command line.
    Memory,
}

impl fmt::Display for ArgFault {
    fn fmt<W: fmt::Write>(&self, f: &mut fmt::Formatter<W>) -> fmt::Result {
        f.write_str(match self {
            ArgFault::Usage => "the command line has no form that the program knows",
            ArgFault::Memory => "too little memory to read the command line",
        })
    }
}

impl std::error::Error for ArgFault {}

// Returns the fault of a command line that clap refuses with this error.
pub(crate) fn fault_of_error(error: &Error) -> ArgFault
    ensures { result ≡ reported_of (kind_of error.now) }
{
    match error.kind() {
        ErrorKind::OutOfMemory => ArgFault::Memory,
        _ => ArgFault::Usage,
    }
}
