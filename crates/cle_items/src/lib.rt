//! The items of a program with the numbers of their labels: E16, and the labels of functions and objects.
#![tactic(auto)]

pub mod bearers;
pub mod functions;
pub mod kinds;
pub mod laws;
pub mod numbers;
pub mod objects;
