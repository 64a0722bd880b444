/// How much a server holds at once, or has room for.
#[derive(Clone, Copy)]
pub struct Held {
    /// Connections of clients.
    pub connections: u32,
    /// Those of them that have a Watch's place.
    pub watches: u32,
    /// Sessions at one of its places, the fullest.
    pub sessions: u32,
}
