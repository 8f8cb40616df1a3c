// The session by value, its limits, the answers of calls, and the start. How a session and its three lent tables are read, and when they
// are in order, stands in specs/.
#![tactic(auto)]

pub mod answers;
pub mod clear;
pub mod lines;
pub mod start;
pub mod state;
