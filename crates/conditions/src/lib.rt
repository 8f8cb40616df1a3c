// The conditions of the rules on forms in a lent table: comparisons of two rows, tightening, divisors and scaling, and what
// all picked forms have.
// Nothing here writes to a table, and nothing knows of lines, levels or records.
#![tactic(auto)]

pub mod compare;
pub mod divided;
pub mod picked;
pub mod tighten;
