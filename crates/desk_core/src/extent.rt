/// How long the history of a registry is.
#[derive(Clone, Copy)]
pub struct Extent {
    /// All entries that were ever made.
    pub entries: u32,
    /// The newest of them, which are still in memory.
    pub kept: usize,
}
