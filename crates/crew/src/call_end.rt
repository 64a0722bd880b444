use web_call::{ExchangeFault, Outcome};

/// How a call ended.
#[derive(Clone, Copy, Debug, PartialEq, Eq)]
pub enum CallEnd {
    /// Its exchange was answered whole.
    Done(Outcome),
    /// Its exchange failed.
    Fault(ExchangeFault),
    /// Its job could not be opened.
    Unopened,
}
