//! Lemmas of tests, orders, numbers, lists and answers, for proofs. It has no code.
#![tactic(auto)]
