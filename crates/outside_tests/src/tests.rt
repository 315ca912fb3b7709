//! The tests, by crate.

mod codec;
mod outside;
