/// What an allowance meets, with the reading of a monotone clock in milliseconds.
#[derive(Clone, Copy)]
pub enum Met {
    /// Somebody asked whether a line may be written.
    Asked(u64),
    /// Somebody asked how many lines were left out.
    Looked(u64),
}
