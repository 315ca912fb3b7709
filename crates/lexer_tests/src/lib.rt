//! Tests of the lexer: tables of sources with their tokens, from C11 and the rules of the profile.
#![tactic(auto)]

#[cfg(test)]
mod tests;
