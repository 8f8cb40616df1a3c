// Lists of literals in slices: joined, tested, gathered without one of them, sorted, and written for forms. Nothing here knows of sessions or tables.
#![tactic(auto)]

pub mod gather;
pub mod join;
pub mod sort;
pub mod tests;
pub mod write;
