//! What the annotations of a program say: the definitions of the rules of labels and of the table of labels.
#![tactic(auto)]

pub mod draft;
