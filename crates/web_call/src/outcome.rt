use grpc_frame::Code;

/// How a call ended that was answered whole.
#[derive(Clone, Copy, Debug, PartialEq, Eq)]
pub enum Outcome {
    /// The request was refused with this status code of HTTP.
    Http(u16),
    /// The call ended with this status.
    Status(Code),
    /// A plain request was answered, by HTTP alone.
    Plain,
    /// A Watch told so many messages; the count stays at its greatest number once it has reached it.
    Watched { messages: u32 },
    /// A Watch that told so many messages was behind: its next status change may be forgotten, or it is of a name without a slot, which has
    /// none. It ended as a Watch ends.
    Behind { messages: u32 },
}
