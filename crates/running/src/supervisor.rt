use handover::{HandedOver, Notifier};
use log_lines::Outlet;
use std::rt::{Env, Files};

/// What a supervisor such as systemd, or a shell, hands a run, and is told by it.
#[derive(Drop)]
pub struct Supervisor {
    /// The first of these sockets is the one that calls come to.
    pub sockets: HandedOver,
    pub notifier: Notifier,
    /// Where its log is written, if anywhere.
    pub outlet: Option<Outlet>,
}

impl Supervisor {
    /// What the environment says to the process of this id, which has opened nothing yet. Where it names no socket to be told, nobody
    /// is told.
    pub fn from_env<R: Env + Files>(rt: &R, process_id: u32) -> Supervisor {
        // The sockets are looked for before anything else is opened, which would have the number of one.
        let sockets = HandedOver::from_env(rt, process_id);
        Supervisor {
            sockets,
            notifier: Notifier::from_env(rt).unwrap_or_else(|_| Notifier::nobody()),
            outlet: Outlet::standard_error(rt),
        }
    }

    /// Nobody, who hands nothing over.
    pub fn nobody() -> Supervisor {
        Supervisor {
            sockets: HandedOver::nothing(),
            notifier: Notifier::nobody(),
            outlet: None,
        }
    }
}
