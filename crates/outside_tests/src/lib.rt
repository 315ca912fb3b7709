//! Tests of the outside and of the codec: tables, with answers from their formats.
#![tactic(auto)]

#[cfg(test)]
mod tests;
