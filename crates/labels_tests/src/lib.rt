//! Tests of labels: tables of definitions, with answers from the rules of annotations.
#![tactic(auto)]

#[cfg(test)]
mod tests;
