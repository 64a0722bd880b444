//! Tests of `health_wire`, of `log_lines`, and of the comparison that all tests rest on, by public calls alone.

mod fields;
mod lines;
mod support;
mod writers;
