//! Tests of names, types and sizes: tables of sources, with answers from C11 and the rules of the profile.
#![tactic(auto)]

#[cfg(test)]
mod tests;
