//! Readers and writers whose clauses name each byte and each call, [`run_lines`], which has a
//! [`LineHandler`] answer each line of a [`Source`] in a [`Sink`], and lists in blocks.
#![tactic(auto)]

pub mod block_list;
mod call;
mod calls;
mod line_buffer;
mod line_handler;
mod lines;
mod log;
mod memory;
mod run;
mod short_text;
mod tap;
mod traits;
pub mod walk;

pub use call::Call;
pub use line_handler::{LineHandler, Response};
pub use lines::{is_one_line, split_at_lf};
pub use log::{CallLog, Log, Piece};
pub use memory::{MemorySink, MemorySource};
pub use run::{RunError, run_lines};
pub use short_text::ShortText;
pub use tap::Tap;
pub use traits::{Sink, Source};
