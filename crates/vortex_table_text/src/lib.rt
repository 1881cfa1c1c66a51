//! Types, values, predicates, answers and descriptions as the JSON text that lines of commands and
//! their answers have, and predicates, types and rows back from it.
#![tactic(auto)]

mod answers;
mod descriptions;
mod error;
pub mod laws;
mod lines;
mod names;
mod predicates;
mod read;
mod shown;
mod to_text;
mod types;
mod written;

pub use descriptions::descriptions_have_their_text;
pub use error::TextError;
pub use lines::{read_lines, read_type, split_line};
pub use read::read_predicate;
pub use shown::Shown;
pub use to_text::ToText;
pub use written::{push_lines, type_line};
