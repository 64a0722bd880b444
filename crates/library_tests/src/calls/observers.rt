//! Tests of `observing`. They see public calls alone.

mod long;
