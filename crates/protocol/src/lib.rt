//! The rules of a bench, and the law that every life of it keeps one ledger.
//!
//! There is no code here. The rules are the definitions in `specs/`: one file for each call, and
//! `Life` for lists of calls. The law is `OneLedger` in `specs/Law.antt`, and is proved of them in
//! `proofs/`; the contract of `life::run_life` states it of each life that is run.
#![tactic(auto)]
