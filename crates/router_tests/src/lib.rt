//! Tests of the router: tables, with answers from the format of frames.
#![tactic(auto)]

#[cfg(test)]
mod tests;
