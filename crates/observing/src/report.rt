/// What is told of a look at the target of this place.
#[derive(Clone, Copy)]
pub(crate) struct Report {
    pub(crate) place: usize,
    pub(crate) passes: bool,
}
