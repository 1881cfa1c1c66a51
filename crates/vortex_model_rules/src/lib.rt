//! Callers' rewrite rules over the model: definitions of falsifiers, satisfiers and scans with such
//! rules in `specs/`, and laws over them as functions whose one clause is the law.
#![tactic(auto)]

pub mod laws;
