//! Lines of JSON as commands of a table: their types, rows, paths and predicates.
#![tactic(auto)]

mod command;
mod forms;
mod kinds;
mod leaves;
mod messages;
mod parse_error;
mod parsed;
mod paths;
mod predicates;
mod rows;

pub use command::{Command, read_command, read_layouts, read_value_command};
pub use forms::{Binary, Form, Leaf, Unary, form_named};
pub use kinds::{present_members, read_digits, read_names, read_plain_named};
pub use messages::{read_dtype, read_message};
pub use parse_error::ParseError;
pub use parsed::{is_whole, length, parse, size};
pub use predicates::read_predicate;
pub use rows::{read_rows, read_value, take_row, take_value};
