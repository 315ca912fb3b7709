//! Tests of the two small forms of a source: tables, with answers from their description.
#![tactic(auto)]

#[cfg(test)]
mod tests;
