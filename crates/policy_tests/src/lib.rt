//! Tests of policies: tables, with answers worked out by hand.
#![tactic(auto)]

#[cfg(test)]
mod tests;
