//! Tables of what the libraries answer where no client of the program can see it.

mod desk;
mod wire;
