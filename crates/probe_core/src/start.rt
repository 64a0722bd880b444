/// How a service that is checked stands before its first check.
#[derive(Clone, Copy, Debug, PartialEq, Eq)]
pub enum Start {
    /// Up.
    Up,
    /// UNKNOWN of health.proto, until it hears an event.
    Unknown,
}
