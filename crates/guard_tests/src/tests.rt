//! The tests, by what they try.

mod guards;
mod layouts;
mod order;
