//! A reader of files, as a caller of the doors: by a footer with statistics of each zone, written
//! by somebody else, it picks the zones to read. Where the footer is honest, no zone that holds a
//! selected row is left out, whatever the predicate.
#![tactic(auto)]

pub mod columns;
pub mod footer;
