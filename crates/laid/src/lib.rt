// How a ledger lies in a session and its tables. That cells are in order exactly where they are some legal ledger laid out, and what each
// write does to the ledger, is proved here. No code.
#![tactic(auto)]
