//! Tests of `control`. They see public calls alone.

mod places;
mod telling;
