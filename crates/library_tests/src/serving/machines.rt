//! Tests of `reactor`. They see public calls alone.

mod links;
mod streams;
