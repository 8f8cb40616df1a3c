// What a judging function may take for granted and what it answers, what the rules on two forms share, and the judges of what the office enters:
// FM and PM. The other rules have a crate for each kind: `pairs`, `remainders`, `terms` and `resolution`. A judge reads only what it judges by, and
// writes only what is lent for its proposal.
#![tactic(auto)]

pub mod entries;
pub mod forms;
pub mod held;
