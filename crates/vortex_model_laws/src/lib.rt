//! Laws over the definitions of predicates, scans and tables, as functions whose one clause is the
//! law.
#![tactic(auto)]

pub mod laws;
