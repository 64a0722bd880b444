//! What a supervisor is told: `handover`.

use crate::same::holds;
use handover::Notifier;

#[test]
fn a_supervisor_that_is_gone_is_an_error(rt: HostRuntime) {
    let notifier = Notifier::to(b"@healthd-where-nobody-listens").expect(&rt, "a name");
    holds(&rt, notifier.ready().is_err(), "nobody listens");
}
