/// What a server told a client.
#[derive(Drop)]
pub struct Told {
    /// The numbers of the statuses, in the order in which they came.
    pub statuses: Vec<u64>,
    /// How the call ended. A Watch that was left, or cut off without trailers, has no end.
    pub end: Option<Ended>,
}

/// The status of a call, which its trailers tell.
#[derive(Drop)]
pub struct Ended {
    /// A status code of gRPC, which may be one that this program doesn't know.
    pub code: u32,
    /// The bytes of the message as they came: percent-encoding is not undone.
    pub text: Vec<u8>,
}
