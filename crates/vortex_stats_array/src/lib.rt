//! Statistics of a leaf column as an array, in one pass over its rows, and over the values that
//! these refer to.
#![tactic(auto)]

pub mod array_stats;
mod asked;
mod counting;
mod counts;
mod leaf_value;
mod nulls;
pub mod of_array;
mod referenced;
mod rows;
mod running;
mod running_sum;
mod seen;
mod shortened;
