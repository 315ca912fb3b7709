//! What the functions of a program use, and where its objects of static duration are declared.
#![tactic(auto)]

pub mod exprs;
pub mod functions;
pub mod lines;
pub mod spot;
pub mod stmts;
pub mod table;
pub mod uses;
pub mod walk;
