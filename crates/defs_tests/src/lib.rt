//! Tests of the table of labels: sources with the rule that fails and its line, or with the table that they have.
#![tactic(auto)]

#[cfg(test)]
mod tests;
