//! How a run ended.

ghost use Rattle.std.specs.Prelude.{◌≡◌};
ghost use Rattle.std.specs.Option.{option_map};
ghost use Rattle.vrx_program.specs.Number.{number_of, cause_of};

/// How a run ended.
#[derive(Clone, Copy, Debug, PartialEq, Eq)]
pub enum Status {
    /// The source was read to its end, and the sink took exactly the text.
    Done,
    /// The words are none that the program knows. Nothing was read or written.
    BadUsage,
    /// A line of the capture is bad, or its settings are refused. The error line is the last one written.
    BadCapture,
    /// A read failed.
    ReadFault,
    /// A write failed.
    WriteFault,
    /// No memory was to be had.
    NoMemory,
}

impl Status {
    /// The number with which the program ends.
    pub fn number(self) -> u8
        ensures number { result ≡ number_of self }
    {
        match self {
            Status::Done => 0,
            Status::BadUsage => 1,
            Status::BadCapture => 2,
            Status::ReadFault => 3,
            Status::WriteFault => 4,
            Status::NoMemory => 5,
        }
    }

    /// What to report to a person, if the run wasn't done.
    pub fn cause(self) -> Option<&'static str>
        ensures cause { option_map (λ text. text.now) result ≡ cause_of self }
    {
        match self {
            Status::Done => None,
            Status::BadUsage => Some(
                "usage: vrx replay|live|inspect < CAPTURE, or vrx drill SEED FRAMES",
            ),
            Status::BadCapture => Some(
                "vrx: a line of the capture is bad, or its settings are refused",
            ),
            Status::ReadFault => Some("vrx: a read failed"),
            Status::WriteFault => Some("vrx: a write failed"),
            Status::NoMemory => Some("vrx: out of memory"),
        }
    }
}
