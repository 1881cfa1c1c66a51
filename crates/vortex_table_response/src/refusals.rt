//! Refusals as short strings, which are not allocated.
ghost use Rattle.std.specs.Prelude.{◌≡◌, ◌≤◌, ◌+◌, ◌++◌, length, decimal};
ghost use Rattle.vortex_model.specs.Refusal.{no_table};
ghost use Rattle.vortex_table_response.specs.Text.{place_text, refusal_parts, refusal_text, bad_line_text};

use itoa::Buffer;
use vortex_table_io::ShortText;

fn push_digits(text: &mut ShortText, n: usize)
    requires { length text.old ≤ 76 }
    ensures text { text.new ≡ text.old ++ decimal n }
    ensures short { length text.new ≤ length text.old + 20 }
{
    let mut buffer = Buffer::new();
    text.push_bytes(buffer.format(n).as_bytes());
}

// Writes the row or path at fault, where there is one.
fn push_place(text: &mut ShortText, place: Option<usize>)
    requires { length text.old ≤ 1 }
    ensures text { text.new ≡ text.old ++ place_text place }
    ensures short { length text.new ≤ 27 }
{
    if let Some(at) = place {
        text.push_bytes(b"\"at\":");
        push_digits(text, at);
        text.push_bytes(b",");
    }
}

/// A refusal of this number and name, which begins with the index of the row or path at fault.
pub fn refusal(place: Option<usize>, number: u8, name: &str) -> ShortText
    requires { length name.now ≤ 24 }
    ensures { result ≡ refusal_parts place number name.now }
{
    let mut text = ShortText::new();
    text.push_bytes(b"{");
    push_place(&mut text, place);
    text.push_bytes(b"\"error\":");
    push_digits(&mut text, number as usize);
    text.push_bytes(b",\"name\":\"");
    text.push_bytes(name.as_bytes());
    text.push_bytes(b"\"}");
    text
}

/// The answer to a line that is no command.
pub fn bad_line() -> ShortText
    ensures { result ≡ bad_line_text }
{
    refusal(None, 18, "BadLine")
}

/// The answer to a command that needs a table, where there is none.
pub fn without_table() -> ShortText
    ensures { result ≡ refusal_text no_table }
{
    refusal(None, 19, "NoTable")
}
