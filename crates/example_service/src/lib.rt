//! A table that is served line by line, with a log of the lines that changed it. The log, replayed,
//! gives the same table, and a log that was cut gives the table of an earlier moment.
#![tactic(auto)]

pub mod laws;
pub mod service;
