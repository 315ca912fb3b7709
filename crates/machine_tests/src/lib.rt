//! Tests of the machine: images by hand, one instruction a row, and a machine that asks.
#![tactic(auto)]

#[cfg(test)]
mod machines;
#[cfg(test)]
mod tests;
