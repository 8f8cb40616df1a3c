// Forms in a lent table: where one lies, its kind, divisor and row, whether its content is legal; and the exact arithmetic that all tests need.
// Nothing here writes to a table, and nothing knows of lines, levels or records.
#![tactic(auto)]

pub mod cells;
pub mod content;
pub mod exact;
