//! Types as compact JSON.
mod quoted;
mod tokens;
mod types;
mod unescaped;

pub use quoted::push_text;
pub use tokens::{push_comma, push_flag, push_number};
pub use types::push_dtype;
