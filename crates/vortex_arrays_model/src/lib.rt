//! Arrays as layouts, the rows that they represent, and laws of both.
#![tactic(auto)]

pub mod laws;
