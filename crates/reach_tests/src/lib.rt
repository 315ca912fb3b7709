//! Tests of what reaches what: graphs, with answers worked out by hand.
#![tactic(auto)]

#[cfg(test)]
mod tests;
