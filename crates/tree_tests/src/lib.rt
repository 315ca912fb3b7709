//! Tests of the arithmetic: tables of operators, kinds and numbers, with results from the C standard.
#![tactic(auto)]

#[cfg(test)]
mod tests;
