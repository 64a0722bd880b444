use std::fmt;

/// What of a server is open now.
#[derive(Clone, Copy)]
pub struct OpenNow {
    /// Connections of calls.
    pub connections: u64,
    /// Watches among them.
    pub watches: u64,
    /// Sessions.
    pub sessions: u64,
}

/// The calls that have ended.
#[derive(Clone, Copy)]
pub struct Ended {
    pub calls: u64,
    /// Those of them whose time was up.
    pub given_up: u64,
    /// Those of them whose Watch was behind.
    pub behind: u64,
    /// Those of them that ended before all was sent for any other reason, mostly since the client broke off or went away.
    pub gone: u64,
}

/// What a server counts of connections, calls and expiries, and whether its journal takes changes.
#[derive(Clone, Copy)]
pub struct Counts {
    pub current: OpenNow,
    pub ended: Ended,
    /// How often a service was brought down since nothing was heard of it.
    pub expired: u64,
    /// 0 if the newest change could not be stored, else 1.
    pub writable: u8,
}

/// What a server counts.
#[derive(Clone, Copy)]
pub struct Stats {
    /// The entries of the history.
    pub entries: u32,
    /// Those that are still in memory.
    pub kept: u32,
    pub counts: Counts,
    /// The entries that may still be made.
    pub left: u32,
}

impl fmt::Display for OpenNow {
    ghost use Rattle.std.specs.Prelude.{Some};
    ghost use Rattle.control.specs.Text.{open_text};

    ghost output = { λ current. Some (open_text current) };

    fn fmt<W: fmt::Write>(&self, f: &mut fmt::Formatter<W>) -> fmt::Result {
        let OpenNow {
            connections,
            watches,
            sessions,
        } = *self;
        write!(
            f,
            "connections {connections} watches {watches} sessions {sessions}"
        )
    }
}

impl fmt::Display for Ended {
    ghost use Rattle.std.specs.Prelude.{Some};
    ghost use Rattle.control.specs.Text.{ended_text};

    ghost output = { λ ended. Some (ended_text ended) };

    fn fmt<W: fmt::Write>(&self, f: &mut fmt::Formatter<W>) -> fmt::Result {
        let Ended {
            calls,
            given_up,
            behind,
            gone,
        } = *self;
        write!(
            f,
            "calls {calls} given_up {given_up} behind {behind} gone {gone}"
        )
    }
}

impl fmt::Display for Counts {
    ghost use Rattle.std.specs.Prelude.{Some};
    ghost use Rattle.control.specs.Text.{counts_text};

    ghost output = { λ counts. Some (counts_text counts) };

    #[tactic(auto, unfolding(crate::specs::Text::counts_text))]
    fn fmt<W: fmt::Write>(&self, f: &mut fmt::Formatter<W>) -> fmt::Result {
        let Counts {
            current,
            ended,
            expired,
            writable: _,
        } = self;
        write!(f, "{current} {ended} expired {expired}")
    }
}

impl fmt::Display for Stats {
    ghost use Rattle.std.specs.Prelude.{Some};
    ghost use Rattle.control.specs.Text.{stats_text};

    ghost output = { λ stats. Some (stats_text stats) };

    fn fmt<W: fmt::Write>(&self, f: &mut fmt::Formatter<W>) -> fmt::Result {
        let Stats {
            entries,
            kept,
            counts,
            left,
        } = self;
        let writable = counts.writable;
        write!(
            f,
            "entries {entries} kept {kept} {counts} left {left} writable {writable}"
        )
    }
}
