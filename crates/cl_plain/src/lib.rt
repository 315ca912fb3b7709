//! Plain programs that compute the definitions of spelling and of well-formed trees, for tests and as a
//! yardstick for later bodies, and worked examples of the definitions.
#![tactic(auto)]

mod declarations;
pub mod examples;
pub mod expressions;
pub mod items;
pub mod statements;
mod types;
pub mod wanted;
mod words;
