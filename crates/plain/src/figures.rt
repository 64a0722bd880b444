/// What a server counts, beside the history of its registry.
#[derive(Clone, Copy)]
pub struct Figures {
    /// When it was started, in seconds since 1970.
    pub started: u64,
    /// The most entries that the history may have.
    pub most: u32,
    /// Whether the newest change could be stored, if there is a journal.
    pub is_writable: bool,
    /// Connections that are open.
    pub connections: u64,
    /// Watches among them.
    pub watches: u64,
    /// Sessions that are open.
    pub sessions: u64,
    /// Conversations over connections that have ended.
    pub calls: u64,
    /// Those of them whose time was up.
    pub given_up: u64,
    /// Those whose client broke off or went away.
    pub gone: u64,
    /// Watches that were ended since they were behind.
    pub behind: u64,
    /// Watches that were ended since there was no place for them.
    pub refused_watches: u64,
    /// How often a service was not heard from in time.
    pub expired: u64,
    pub refused: Refused,
    /// When the service of each slot was reported last, in seconds since 1970; 0 where it was not in this run.
    pub reported: [u64; 16],
    /// Every how many seconds the service of each slot has to be heard from at least; 0 where nothing is expected of it.
    pub expected: [u64; 16],
}

/// How many changes were refused, by cause.
#[derive(Clone, Copy)]
pub struct Refused {
    pub bad_rule: u64,
    pub full: u64,
    pub no_memory: u64,
    pub not_listed: u64,
    pub not_stored: u64,
}
