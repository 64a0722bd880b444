//! Tests of `live_server`, `reactor` and `server`.

mod loops;
mod machines;
mod queues;
mod recorder;
mod rounds;
mod servers;
mod stage;
