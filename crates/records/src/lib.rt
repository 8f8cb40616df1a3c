// Records as bytes: the table of marks, and the shape of a record.
#![tactic(auto)]

pub mod marks;
pub mod shape;
