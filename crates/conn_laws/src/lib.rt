//! What ties one connection, its requests and its link to a ledger, and what each change keeps of it. Lemmas alone.
#![tactic(auto)]
