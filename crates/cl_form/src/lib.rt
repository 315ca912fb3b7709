//! The two small forms of sources that a run serves so far, and their reader.
#![tactic(auto)]

pub mod alone;
pub mod checked;
pub mod form;
pub mod head;
pub mod names;
pub mod pair;
pub mod part;
pub mod shape;
pub mod stop;
pub mod text;
