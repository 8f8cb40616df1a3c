// The demands, said of the calls on cells: that a contract allows one outcome only, what every call keeps, and what the calls since a start
// leave. No code.
#![tactic(auto)]
