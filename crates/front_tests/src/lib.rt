//! Tests of the front end: sources that are accepted, with their levels and rows, and sources that break a rule.
#![tactic(auto)]

#[cfg(test)]
mod tests;
