/// How a target is asked.
#[derive(Clone, Copy)]
pub enum Kind {
    /// By a connection, and nothing more.
    Tcp,
    /// By a GET.
    Http,
    /// By a Check of another health server.
    GrpcWeb,
}
