// The checker's call on a session and its lent tables: feed, which takes one record.
#![tactic(auto)]

pub mod change;
pub mod feed;
pub mod keep;
