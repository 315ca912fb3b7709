//! E19: names that are declared a second time in their scope.
#![tactic(auto)]

pub mod items;
pub mod stmts;
