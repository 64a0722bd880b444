/// A connection that is held.
#[derive(Drop)]
pub struct HeldConnection<C> {
    pub connection: C,
    /// Whether it is admitted as an open Watch.
    pub is_watch: bool,
}

impl<C> HeldConnection<C> {
    ghost use Rattle.std.specs.Prelude.{◌≡◌};
    ghost use Rattle.std.specs.Borrow.{Lends, sem};
    ghost use Rattle.reactor.specs.contracts.held_connection.HeldConnection.{the_row};

    pub fn connection_mut(&mut self) -> &mut C
        ensures* lends { sem 𝓛 (Lends (the_row C.row) C.row self.entry result (λ connection. record self.old { connection = connection })) }
        ensures value { result.now ≡ self.old.connection }
    {
        &mut self.connection
    }
}
