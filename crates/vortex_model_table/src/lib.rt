//! The model of predicates, statistics, zone maps and tables: definitions in `specs/`, and one law
//! over them as a function whose clause is the law.
#![tactic(auto)]

pub mod laws;
