/// How a server ended.
#[derive(Clone, Copy)]
pub enum Ending {
    /// It has served, and was told to stop.
    Stopped,
    /// It was told to stop before the threads had begun that it needs, and has not served.
    StoppedEarly,
    /// It lacked a thread, and has not served.
    LacksThreads,
}

impl Ending {
    /// Whether the server has served.
    pub(crate) fn has_served(self) -> bool {
        match self {
            Ending::Stopped => true,
            Ending::StoppedEarly | Ending::LacksThreads => false,
        }
    }

    /// What its last line says of it.
    pub(crate) fn why(self) -> &'static str {
        match self {
            Ending::Stopped | Ending::StoppedEarly => "stopped",
            Ending::LacksThreads => "too few threads",
        }
    }
}
