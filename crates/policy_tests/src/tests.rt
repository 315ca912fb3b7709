//! The tests, by what they try.

mod laws;
mod layouts;
mod policies;
mod reading;
mod rules;
