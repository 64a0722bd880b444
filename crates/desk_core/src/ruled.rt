use probe_core::Rule;

/// By what rule a slot is registered, at a point of the history.
#[derive(Clone, Copy)]
pub struct Ruled {
    pub rule: Option<Rule>,
    /// All entries that were made by then.
    pub entries: u32,
}
