ghost use Rattle.std.specs.Prelude.{◌≤◌, ◌+◌, vec_len, vec_capacity};
ghost use Rattle.web_call.specs.Reading.{some_wanted, head_wanted, body_left};

mod steps;

/// How far a request has been read.
#[derive(Clone, Copy, PartialEq, Eq)]
pub(crate) enum Reading {
    Head,
    /// So many bytes of the body are to come.
    Body { left: u32 },
    Whole,
    /// The allocation for the body failed.
    Starved,
}

/// The bytes of a request so far, and none behind it.
#[derive(Drop)]
pub(crate) struct Intake {
    head: Vec<u8>,
    body: Vec<u8>,
    reading: Reading,
    ghost capacity: { 8192 ≤ vec_capacity head },
    ghost within: { vec_len head + head_wanted reading ≤ 8192 },
    ghost room: { vec_len body + body_left reading ≤ vec_capacity body },
    ghost more: { 1 ≤ some_wanted reading },
}
