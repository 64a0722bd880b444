/// What a service's clients are told, under the numbers 0 to 3 of `ServingStatus` in health.proto.
#[derive(Clone, Copy, Debug, PartialEq, Eq)]
pub enum Serving {
    Unknown,
    Serving,
    NotServing,
    /// Only Watch answers it, for a name that is not registered.
    ServiceUnknown,
}
