ghost use Rattle.std.specs.Prelude.{◌≡◌, ◌≤◌, length, decimal};

/// How a call ended, of gRPC's status codes those that a health server sends.
#[derive(Clone, Copy, Debug, PartialEq, Eq)]
pub enum Code {
    Ok = 0,
    NotFound = 5,
    ResourceExhausted = 8,
    Unimplemented = 12,
    Internal = 13,
    Unavailable = 14,
}

impl Code {
    ghost use Rattle.grpc_frame.specs.Code.{code_number};

    /// The number in gRPC's list of status codes.
    pub fn number(self) -> u32
        ensures { result ≡ code_number self }
    {
        self as u32
    }

    #[tactic(auto, using(std::proofs::lemmas::Fmt::decimal_digit, std::proofs::lemmas::Fmt::decimal_step))]
    pub(crate) fn digits(self) -> &'static [u8]
        ensures value { result.now ≡ decimal (code_number self) }
        ensures short { length result.now ≤ 2 }
    {
        match self {
            Code::Ok => b"0",
            Code::NotFound => b"5",
            Code::ResourceExhausted => b"8",
            Code::Unimplemented => b"12",
            Code::Internal => b"13",
            Code::Unavailable => b"14",
        }
    }
}
