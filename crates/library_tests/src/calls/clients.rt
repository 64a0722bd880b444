//! Calls of `client::ask` whose reader or writer fails, or whose response has too long a chunk.

mod faults;
mod lengths;
