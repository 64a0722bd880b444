//! Tests of the server that ends (`server`). They see public calls alone.

mod crews;
mod reports;
