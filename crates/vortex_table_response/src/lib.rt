//! Answers as compact JSON.
#![tactic(auto)]

mod descriptions;
mod hexadecimal;
mod indices;
mod refusals;
mod scans;
pub mod type_texts;
mod values;

pub use descriptions::{push_description, push_members};
pub use hexadecimal::push_bytes;
pub use refusals::{bad_line, refusal, without_table};
pub use scans::{push_scan_end, push_scan_front};
pub use type_texts::{push_dtype, push_flag, push_number};
pub use values::{push_cell, push_numbers, push_value};
