use std::alloc::{AllocError, AllocFailed};
use std::error::Error;
use std::fmt;

/// An allocation failed, and nothing else can have gone wrong.
pub type NoMemory = AllocError;

/// Why the body of a request is not the frame of one message. Faults are met from the left, and the first one counts.
#[derive(Clone, Copy, Debug, PartialEq, Eq)]
pub enum FrameFault {
    /// The frame of a message ends in its header or in its content.
    Truncated = 1,
    /// The message is compressed, by its flag alone.
    Compressed = 2,
    /// The body has no byte.
    NoMessage = 3,
    /// A second whole message follows the first.
    MoreThanOne = 4,
    /// A flag has its top bit set, as that of trailers has.
    TrailerInRequest = 5,
    /// A flag is from 2 to 127, which no frame has.
    BadFlag = 6,
}

impl FrameFault {
    ghost use Rattle.std.specs.Prelude.{◌≡◌};
    ghost use Rattle.grpc_frame.specs.Fault.{fault_number};

    /// The number that a program may print.
    pub fn number(self) -> u8
        ensures { result ≡ fault_number self }
    {
        self as u8
    }
}

impl fmt::Display for FrameFault {
    ghost use Rattle.std.specs.Prelude.{Some};
    ghost use Rattle.grpc_frame.specs.Fault.{text_of};

    ghost output = { λ fault. Some (text_of fault) };

    fn fmt<W: fmt::Write>(&self, f: &mut fmt::Formatter<W>) -> fmt::Result {
        f.write_str(match self {
            FrameFault::Truncated => "the body ends inside a frame",
            FrameFault::Compressed => "the message is compressed",
            FrameFault::NoMessage => "the body holds no message",
            FrameFault::MoreThanOne => "the body holds more than one message",
            FrameFault::TrailerInRequest => "a request has no trailers",
            FrameFault::BadFlag => "no frame has this flag",
        })
    }
}

impl Error for FrameFault {}

/// Why a stream gives no frame now. The stream stays as it was.
#[derive(Clone, Copy, Debug, PartialEq, Eq)]
pub enum SplitFault {
    /// An allocation failed. The frame stays in the rest, and a later call may take it.
    NoMemory = 1,
    /// The next frame's length is over 1,048,576 bytes. Each later call answers the same.
    TooLong = 2,
}

impl SplitFault {
    ghost use Rattle.std.specs.Prelude.{◌≡◌};
    ghost use Rattle.grpc_frame.specs.Fault.{split_fault_number};

    /// The number that a program may print.
    pub fn number(self) -> u8
        ensures { result ≡ split_fault_number self }
    {
        self as u8
    }
}

impl fmt::Display for SplitFault {
    ghost use Rattle.std.specs.Prelude.{Some};
    ghost use Rattle.grpc_frame.specs.Fault.{split_text_of};

    ghost output = { λ fault. Some (split_text_of fault) };

    fn fmt<W: fmt::Write>(&self, f: &mut fmt::Formatter<W>) -> fmt::Result {
        f.write_str(match self {
            SplitFault::NoMemory => "out of memory",
            SplitFault::TooLong => "the frame is too long",
        })
    }
}

impl Error for SplitFault {}

impl From<AllocError> for SplitFault {
    ghost use Rattle.std.specs.Prelude.{◌≡◌};
    ghost use Rattle.grpc_frame.specs.declared.fault.SplitFault.TheVariants.{NoMemory};

    ghost from_gives = { λ _ fault. fault ≡ NoMemory };

    fn from(_refused: AllocError) -> SplitFault {
        SplitFault::NoMemory
    }
}

impl<T: Drop> From<AllocFailed<T>> for SplitFault {
    ghost use Rattle.std.specs.Prelude.{◌≡◌};
    ghost use Rattle.grpc_frame.specs.declared.fault.SplitFault.TheVariants.{NoMemory};

    ghost from_gives = { λ _ fault. fault ≡ NoMemory };

    fn from(_refused: AllocFailed<T>) -> SplitFault {
        SplitFault::NoMemory
    }
}

/// Why the trailers of a response tell no status.
#[derive(Clone, Copy, Debug, PartialEq, Eq)]
pub enum TrailerFault {
    /// A line has no colon. It counts before the other faults.
    NoColon = 1,
    /// No line is named `grpc-status`.
    NoStatus = 2,
    /// The status is not one to nine ASCII digits.
    BadStatus = 3,
}

impl TrailerFault {
    ghost use Rattle.std.specs.Prelude.{◌≡◌};
    ghost use Rattle.grpc_frame.specs.Fault.{trailer_fault_number};

    /// The number that a program may print.
    pub fn number(self) -> u8
        ensures { result ≡ trailer_fault_number self }
    {
        self as u8
    }
}

impl fmt::Display for TrailerFault {
    ghost use Rattle.std.specs.Prelude.{Some};
    ghost use Rattle.grpc_frame.specs.Fault.{trailer_text_of};

    ghost output = { λ fault. Some (trailer_text_of fault) };

    fn fmt<W: fmt::Write>(&self, f: &mut fmt::Formatter<W>) -> fmt::Result {
        f.write_str(match self {
            TrailerFault::NoColon => "a line has no colon",
            TrailerFault::NoStatus => "no line has a status",
            TrailerFault::BadStatus => "the status is not one to nine digits",
        })
    }
}

impl Error for TrailerFault {}
