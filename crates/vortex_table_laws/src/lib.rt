//! Laws of scans, appends, retypes and compactions, as functions that make the calls, and of tables
//! that are put end to end.
#![tactic(auto)]

pub mod laws;
