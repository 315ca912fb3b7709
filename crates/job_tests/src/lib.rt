//! Tests of the top call: words, sources and faults, with the texts, files and statuses that they give.
#![tactic(auto)]

#[cfg(test)]
mod tests;
