//! How runs and steps end.
ghost use Rattle.std.specs.Prelude.{◌≡◌};
ghost use Rattle.pop_run.specs.ExitStatus.{exit_status_of};

/// The exit status of a program: all is written, and every problem that was read is sound.
pub const EXIT_SOUND: u8 = 0;

/// The exit status of a program: all is written, and some problem is faulty.
pub const EXIT_FAULTY: u8 = 1;

/// The exit status of a program: the words of its command line have no form of it, or name what isn't there.
pub const EXIT_REFUSED: u8 = 2;

/// The exit status of a program: its input can't be opened or failed, or its output failed.
pub const EXIT_DEVICE_FAILED: u8 = 3;

/// The exit status of a program: there was no memory to read the words of its command line.
pub const EXIT_OUT_OF_MEMORY: u8 = 4;

/// How a run ends.
#[derive(Clone, Copy, Debug, PartialEq, Eq)]
pub enum Status {
    /// Every problem is sound.
    Sound,
    /// Some problem is faulty.
    Faulty,
    /// The input device failed.
    InputFailed,
    /// A write failed. Runs return it; a step of a session returns `SinkFault` instead.
    OutputFailed,
}

impl Status {
    /// Returns the exit status of a program whose run ends so, 0, 1 or 3, or `None` if a write or the last flush
    /// failed: the program then reports that failure.
    pub fn exit_status(self, is_flushed: bool) -> Option<u8>
        ensures { result ≡ exit_status_of self is_flushed }
    {
        match self {
            _ if !is_flushed => None,
            Status::OutputFailed => None,
            Status::InputFailed => Some(EXIT_DEVICE_FAILED),
            Status::Faulty => Some(EXIT_FAULTY),
            Status::Sound => Some(EXIT_SOUND),
        }
    }
}

/// What a step of a session did.
#[derive(Clone, Copy, Debug, PartialEq, Eq)]
pub enum Step {
    /// One item was read and reported. A sound item was solved, or only tested.
    Problem { sound: bool },
    /// No item was left. Holds the status of all items.
    Finished(Status),
}
