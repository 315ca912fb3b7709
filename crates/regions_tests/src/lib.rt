//! Tests of regions and of the labels of items: a table of sources, with answers from the rules of the annotations.
#![tactic(auto)]

#[cfg(test)]
mod tests;
