/// What a look is told.
#[derive(Clone, Copy)]
pub enum Event<'a> {
    /// The name of the host has so many addresses.
    Resolved(usize),
    /// The connection that was asked for stands.
    Connected,
    /// It could not be made.
    Refused,
    /// These bytes came.
    Came(&'a [u8]),
    /// Nothing more comes.
    Closed,
    /// Nothing happened, and time passed.
    Waited,
}
