//! Zones that need not be read: of a table with a row of statistics for each zone, those in which
//! a predicate selects no row, and those in which it selects each row.
#![tactic(auto)]

pub mod pruner;
