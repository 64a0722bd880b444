/// What happens to a service: a finding, `Pass` or `Fail`, or a setting, `Up` or `Down`.
#[derive(Clone, Copy)]
pub enum Event {
    Pass,
    Fail,
    Up,
    Down,
}
