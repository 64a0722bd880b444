use plain::Figures;

/// What tells how much a server holds by now, and what it has done.
pub trait Meter {
    fn read(&self) -> Figures;
}
