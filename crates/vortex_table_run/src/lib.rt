//! A table served line by line: [`commands::run`] reads commands from a source and writes their
//! answers into a sink, straight from the arrays that have the rows, and [`session::Session`] is
//! the table that they change.
#![tactic(auto)]

pub mod commands;
pub mod content;
mod cut;
mod groups;
mod leaves;
mod native;
mod refused;
mod rows;
pub mod scan;
pub mod session;

// The table of a session, for the door to name.
pub use vortex_table_core::table::Table;
