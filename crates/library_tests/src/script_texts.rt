//! Tests of scripts, by public calls alone.

mod explanation;
