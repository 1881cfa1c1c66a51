//! Handlers, which answer lines.
ghost use Rattle.std.specs.Prelude.{◌≡◌, ◌↔◌, ℕ, List, IsTrue};
ghost use Rattle.vortex_table_io.specs.Lines.{with_lf};
ghost use Rattle.vortex_table_io.specs.Replies.{memory_text, ok_text};

use crate::short_text::ShortText;
use std::alloc::Global;

const OK_LINE: &[u8] = b"{\"ok\":true}\n";

const MEMORY_LINE: &[u8] = b"{\"error\":1,\"name\":\"Memory\"}\n";

/// How a line was answered.
#[derive(Drop)]
pub enum Response {
    /// The answer and an LF are in the buffer.
    Written,
    /// This string.
    Short(ShortText),
    /// `{"ok":true}`.
    Done,
    /// `{"error":1,"name":"Memory"}`: memory ran out.
    NoMemory,
}

impl Response {
    ghost use Rattle.vortex_table_io.specs.Responses.{response_line};

    /// The answer with its LF, given the buffer that was handed to the handler.
    pub fn as_line<'a>(&'a self, out: &'a [u8]) -> &'a [u8]
        ensures { result.now ≡ response_line self.now out.now }
    {
        match self {
            Response::Written => out,
            Response::Short(text) => text.as_line(),
            Response::Done => OK_LINE,
            Response::NoMemory => MEMORY_LINE,
        }
    }

    /// Whether the answer is `{"ok":true}`, as that of each command that may change the table is.
    pub fn is_ok(&self, out: &[u8]) -> bool
        ensures { IsTrue result ↔ (response_line self.now out.now ≡ with_lf ok_text) }
    {
        self.as_line(out) == OK_LINE
    }

    /// Whether the answer is that memory ran out.
    pub fn lacks_memory(&self, out: &[u8]) -> bool
        ensures { IsTrue result ↔ (response_line self.now out.now ≡ with_lf memory_text) }
    {
        self.as_line(out) == MEMORY_LINE
    }
}

/// Answers lines, one at a time.
pub trait LineHandler {
    ghost use Rattle.vortex_table_io.specs.Responses.{Says};

    /// The state of a handler, as contracts see it.
    ghost State: { Type 0 };

    ghost view: { Self → State };

    /// In the old state, this line may be answered by this string, which leaves the new state.
    ghost answers: { State → List ℕ → List ℕ → State → Type 0 };

    /// Answers a line, given without its LF. What the buffer holds before the call is left over
    /// from earlier lines, and is ignored.
    fn answer(&mut self, alloc: Global, line: &[u8], out: &mut Vec<u8>) -> Response
        ensures { Says answers (view self.old) line.now result out.new.items (view self.new) };

    /// Each line may be answered by error 1, which leaves the state as it is.
    ghost may_lack_memory: { (now : State) (line : List ℕ) → answers now line memory_text now };
}
