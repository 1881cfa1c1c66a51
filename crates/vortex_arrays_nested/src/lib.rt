//! Typed arrays over other arrays: dictionaries, lists of one size and lists of any size.
#![tactic(auto)]

mod bounds;
mod codes;
pub mod dict_array;
pub mod fixed_size_list;
mod follow;
pub mod list_view;
mod pairs;
mod reach;
pub mod referenced;
mod views;
