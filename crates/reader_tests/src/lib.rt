//! Tests of the front end as far as it reads: tables of sources, with answers from the language's rules.
#![tactic(auto)]

#[cfg(test)]
mod tests;
