//! A query planner over `vortex_table`: it shares the chunks of a table out among workers by rows,
//! leaves out those that a scan skips, and puts the workers' answers end to end.
#![tactic(auto)]

pub mod plan;
