//! Tests of a run through the router: tables, with answers worked out by hand.
#![tactic(auto)]

#[cfg(test)]
mod tests;
