//! Reads lines from a source, has a handler answer each, and writes the answers to a sink.
ghost use Rattle.std.specs.Prelude.{◌≡◌, ◌≢◌, ◌⊎◌, ◌≤◌, ◌+◌, ◌-◌, ◌^◌, ℕ, List, [], ◌∷◌, ◌++◌, length, false, true, OnOk, OnErr, IfErr, IfOk, IsErrOf, MatchOption};
ghost use Rattle.vortex_table_io.specs.Lines.{IsOneLine, with_lf};
ghost use Rattle.vortex_table_io.specs.Replies.{AnswersAll, AnswersPart, AnswersWhole, FeedOk, FeedErr, FinishOk, FinishErr};
ghost use Rattle.vortex_table_io.specs.Responses.{SaysLine, response_line};
ghost use Rattle.vortex_table_io.specs.Streams.{OnlyPassed, EndsIn, has_ended, has_failed};

use crate::call::Call;
use crate::line_buffer::LineBuffer;
use crate::line_handler::{LineHandler, Response};
use crate::lines::split_at_lf;
use crate::traits::{Sink, Source};
use std::alloc::{AllocError, Global};

// The length of a read, in bytes.
const BLOCK_LENGTH: usize = 64 * 1024;

// With this many bytes of gathered answers, they are written before more is gathered.
const GATHERED_LENGTH: usize = 64 * 1024;

// An answer of this many bytes or more is written by itself.
const LONG_LENGTH: usize = 16 * 1024;

/// Why a run ended early.
#[derive(Clone, Copy, Debug, PartialEq, Eq, Drop)]
pub enum RunError {
    /// A read failed, or was interrupted.
    Read,
    /// A write or the flush failed, or a write took no byte.
    Write,
    /// 2^64 - 1 bytes were read, and more may follow.
    Limit,
}

// Writes all bytes, in as many writes as it takes.
fn write_all<W: Sink>(writer: &mut W, text: &[u8]) -> Result<(), RunError>
    ensures ok { OnOk result (W.history writer.new ≡ W.history writer.old ++ text.now) }
    ensures fine { OnOk result (OnlyPassed (W.calls writer.old) (W.calls writer.new)) }
    ensures part { OnErr result ((rest : List ℕ)
        × (W.history writer.new ++ rest ≡ W.history writer.old ++ text.now)) }
    ensures err { IfErr result (λ e. (e ≡ RunError.Write)
        × EndsIn Call.Failed (W.calls writer.old) (W.calls writer.new)) }
{
    let mut rest = text;
    while !rest.is_empty() {
        match writer.write(rest) {
            Ok(0) | Err(_) => return Err(RunError::Write),
            Ok(n) => {
                let (_, after) = rest.split_at(n);
                rest = after;
            }
        }
    }
    Ok(())
}

// The answer to the line in the buffer: error 1 where memory for the line ran out.
fn decide<M: LineHandler>(
    alloc: Global,
    handler: &mut M,
    buffer: &LineBuffer,
    out: &mut Vec<u8>,
) -> Response
    ensures { SaysLine M.answers (M.view handler.old) buffer.now.line.bytes
        (response_line result out.new.items) (M.view handler.new) }
{
    match buffer.whole() {
        Ok(line) => handler.answer(alloc, line, out),
        Err(AllocError) => Response::NoMemory,
    }
}

// Answers the line in the buffer, and writes the answer with its LF.
fn answer_line<M: LineHandler, W: Sink>(
    alloc: Global,
    handler: &mut M,
    buffer: &LineBuffer,
    out: &mut Vec<u8>,
    writer: &mut W,
) -> Result<(), RunError>
    ensures ok { OnOk result ((text : List ℕ)
        × M.answers (M.view handler.old) buffer.now.line.bytes text (M.view handler.new)
        × (W.history writer.new ≡ W.history writer.old ++ with_lf text)) }
    ensures fine { OnOk result (OnlyPassed (W.calls writer.old) (W.calls writer.new)) }
    ensures part { OnErr result ((text rest : List ℕ)
        × M.answers (M.view handler.old) buffer.now.line.bytes text (M.view handler.new)
        × (W.history writer.new ++ rest ≡ W.history writer.old ++ with_lf text)) }
    ensures err { IfErr result (λ e. (e ≡ RunError.Write)
        × EndsIn Call.Failed (W.calls writer.old) (W.calls writer.new)) }
{
    let response = decide(alloc, handler, buffer, out);
    write_all(writer, response.as_line(out))
}

// Writes the gathered answers, which empties them, and then one more answer.
fn write_behind<W: Sink>(
    gathered: &mut Vec<u8>,
    writer: &mut W,
    text: &[u8],
) -> Result<(), RunError>
    ensures ok { OnOk result (W.history writer.new ++ gathered.new.items
        ≡ (W.history writer.old ++ gathered.old.items) ++ text.now) }
    ensures fine { OnOk result (OnlyPassed (W.calls writer.old) (W.calls writer.new)) }
    ensures part { OnErr result ((rest : List ℕ) × (W.history writer.new ++ rest
        ≡ (W.history writer.old ++ gathered.old.items) ++ text.now)) }
    ensures err { IfErr result (λ e. (e ≡ RunError.Write)
        × EndsIn Call.Failed (W.calls writer.old) (W.calls writer.new)) }
{
    write_all(writer, gathered)?;
    gathered.clear();
    write_all(writer, text)
}

// Adds an answer to the gathered ones. A long one, or one that they have no room for, is written at
// once, after them.
fn hand_out<W: Sink>(gathered: &mut Vec<u8>, writer: &mut W, text: &[u8]) -> Result<(), RunError>
    ensures ok { OnOk result (W.history writer.new ++ gathered.new.items
        ≡ (W.history writer.old ++ gathered.old.items) ++ text.now) }
    ensures fine { OnOk result (OnlyPassed (W.calls writer.old) (W.calls writer.new)) }
    ensures part { OnErr result ((rest : List ℕ) × (W.history writer.new ++ rest
        ≡ (W.history writer.old ++ gathered.old.items) ++ text.now)) }
    ensures err { IfErr result (λ e. (e ≡ RunError.Write)
        × EndsIn Call.Failed (W.calls writer.old) (W.calls writer.new)) }
{
    let is_short = text.len() < LONG_LENGTH && gathered.len() < GATHERED_LENGTH;
    if is_short && gathered.extend_from_slice(text).is_ok() {
        return Ok(());
    }
    write_behind(gathered, writer, text)
}

// Answers the line in the buffer, after the gathered answers.
fn gather_line<M: LineHandler, W: Sink>(
    alloc: Global,
    handler: &mut M,
    buffer: &LineBuffer,
    out: &mut Vec<u8>,
    gathered: &mut Vec<u8>,
    writer: &mut W,
) -> Result<(), RunError>
    ensures ok { OnOk result ((text : List ℕ)
        × M.answers (M.view handler.old) buffer.now.line.bytes text (M.view handler.new)
        × (W.history writer.new ++ gathered.new.items
        ≡ (W.history writer.old ++ gathered.old.items) ++ with_lf text)) }
    ensures fine { OnOk result (OnlyPassed (W.calls writer.old) (W.calls writer.new)) }
    ensures part { OnErr result ((text rest : List ℕ)
        × M.answers (M.view handler.old) buffer.now.line.bytes text (M.view handler.new)
        × (W.history writer.new ++ rest
        ≡ (W.history writer.old ++ gathered.old.items) ++ with_lf text)) }
    ensures err { IfErr result (λ e. (e ≡ RunError.Write)
        × EndsIn Call.Failed (W.calls writer.old) (W.calls writer.new)) }
{
    let response = decide(alloc, handler, buffer, out);
    hand_out(gathered, writer, response.as_line(out))
}

// Takes the next piece of the input, and gathers the answers to the lines that it completes.
fn gather<M: LineHandler, W: Sink>(
    alloc: Global,
    handler: &mut M,
    buffer: &mut LineBuffer,
    out: &mut Vec<u8>,
    gathered: &mut Vec<u8>,
    writer: &mut W,
    piece: &[u8],
) -> Result<(), RunError>
    ensures ok { OnOk result (FeedOk M.answers (M.view handler.old) buffer.old.line.bytes piece.now
        buffer.new.line.bytes (W.history writer.old ++ gathered.old.items)
        (W.history writer.new ++ gathered.new.items) (M.view handler.new)) }
    ensures fine { OnOk result (OnlyPassed (W.calls writer.old) (W.calls writer.new)) }
    ensures part { OnErr result
        (FeedErr M.answers (M.view handler.old) buffer.old.line.bytes piece.now
        (W.history writer.old ++ gathered.old.items) (W.history writer.new)) }
    ensures err { IfErr result (λ e. (e ≡ RunError.Write)
        × EndsIn Call.Failed (W.calls writer.old) (W.calls writer.new)) }
{
    let mut rest = piece;
    while let Some((line, after)) = split_at_lf(rest) {
        buffer.add(alloc, line);
        gather_line(alloc, handler, buffer, out, gathered, writer)?;
        buffer.clear();
        rest = after;
    }
    buffer.add(alloc, rest);
    Ok(())
}

// Takes the next piece of the input, and answers each line that it completes, the short answers
// together.
fn feed<M: LineHandler, W: Sink>(
    alloc: Global,
    handler: &mut M,
    buffer: &mut LineBuffer,
    out: &mut Vec<u8>,
    gathered: &mut Vec<u8>,
    writer: &mut W,
    piece: &[u8],
) -> Result<(), RunError>
    ensures ok { OnOk result (FeedOk M.answers (M.view handler.old) buffer.old.line.bytes piece.now
        buffer.new.line.bytes (W.history writer.old) (W.history writer.new) (M.view handler.new)) }
    ensures fine { OnOk result (OnlyPassed (W.calls writer.old) (W.calls writer.new)) }
    ensures part { OnErr result
        (FeedErr M.answers (M.view handler.old) buffer.old.line.bytes piece.now
        (W.history writer.old) (W.history writer.new)) }
    ensures err { IfErr result (λ e. (e ≡ RunError.Write)
        × EndsIn Call.Failed (W.calls writer.old) (W.calls writer.new)) }
{
    gathered.clear();
    gather(alloc, handler, buffer, out, gathered, writer, piece)?;
    write_all(writer, gathered)
}

// Answers the last line if it lacks its LF, and flushes the sink.
fn finish<M: LineHandler, W: Sink>(
    alloc: Global,
    handler: &mut M,
    buffer: &LineBuffer,
    out: &mut Vec<u8>,
    writer: &mut W,
) -> Result<(), RunError>
    ensures ok { OnOk result (FinishOk M.answers (M.view handler.old) buffer.now.line.bytes
        (W.history writer.old) (W.history writer.new) (M.view handler.new)) }
    ensures ends { OnOk result (EndsIn Call.Flushed (W.calls writer.old) (W.calls writer.new)) }
    ensures flushed { OnOk result (W.flushed writer.new ≡ W.history writer.new) }
    ensures part { OnErr result (FinishErr M.answers (M.view handler.old) buffer.now.line.bytes
        (W.history writer.old) (W.history writer.new)) }
    ensures err { IfErr result (λ e. (e ≡ RunError.Write)
        × EndsIn Call.Failed (W.calls writer.old) (W.calls writer.new)) }
{
    if !buffer.is_empty() {
        answer_line(alloc, handler, buffer, out, writer)?;
    }
    match writer.flush() {
        Ok(()) => Ok(()),
        Err(_) => Err(RunError::Write),
    }
}

/// Reads lines up to the end of a source, and writes the handler's answer to each to a sink, with
/// an LF.
///
/// An LF ends a line, and the last line may lack it. A line that memory runs out for is read to its
/// end and answered by error 1, and the next line is served. The answers to the lines that one read
/// completed are written before the next read, since that may fail: the short ones together, in as
/// few writes as the sink takes.
pub fn run_lines<M: LineHandler, R: Source, W: Sink>(
    alloc: Global,
    handler: &mut M,
    reader: &mut R,
    writer: &mut W,
) -> Result<(), RunError>
    requires not_ended { has_ended (R.calls reader.old) ≡ false }
    requires reads { has_failed (R.calls reader.old) ≡ false }
    requires writes { has_failed (W.calls writer.old) ≡ false }

    // Each line that was read is answered, and all of the source was read.
    ensures ok { OnOk result (AnswersAll M.answers (M.view handler.old)
        (R.history reader.old) (R.history reader.new)
        (W.history writer.old) (W.history writer.new) (M.view handler.new)) }
    ensures all_read { OnOk result ((has_ended (R.calls reader.new) ≡ true)
        × (has_failed (R.calls reader.new) ≡ false) × (has_failed (W.calls writer.new) ≡ false)) }
    ensures flushed { OnOk result (W.flushed writer.new ≡ W.history writer.new) }
    ensures ends { OnOk result (EndsIn Call.AtEnd (R.calls reader.old) (R.calls reader.new)
        × EndsIn Call.Flushed (W.calls writer.old) (W.calls writer.new)) }

    // What no read changes is as before, whether or not the run fails.
    ensures fixed { R.fixed reader.new ≡ R.fixed reader.old }

    // After an error, what was written is a prefix of the answers.
    ensures part { OnErr result (AnswersPart M.answers (M.view handler.old)
        (R.history reader.old) (R.history reader.new)
        (W.history writer.old) (W.history writer.new)) }
    ensures answered { IfErr result (λ e. e ≢ RunError.Write
        → AnswersWhole M.answers (M.view handler.old) (R.history reader.old) (R.history reader.new)
        (W.history writer.old) (W.history writer.new)) }

    // The failed call is the last, and no flush went before it.
    ensures read { IsErrOf result RunError.Read
        → EndsIn Call.Failed (R.calls reader.old) (R.calls reader.new)
        × OnlyPassed (W.calls writer.old) (W.calls writer.new) }
    ensures write { IsErrOf result RunError.Write
        → (OnlyPassed (R.calls reader.old) (R.calls reader.new)
        ⊎ EndsIn Call.AtEnd (R.calls reader.old) (R.calls reader.new))
        × EndsIn Call.Failed (W.calls writer.old) (W.calls writer.new) }
    ensures limit { IsErrOf result RunError.Limit
        → (length (R.history reader.old) + (2 ^ 64 - 1) ≤ length (R.history reader.new))
        × OnlyPassed (R.calls reader.old) (R.calls reader.new)
        × OnlyPassed (W.calls writer.old) (W.calls writer.new) }
{
    let mut buffer = LineBuffer::new(alloc);
    let mut out = Vec::new(alloc);
    let mut gathered = Vec::new(alloc);
    let mut block = [0u8; BLOCK_LENGTH];
    for _ in 0..u64::MAX {
        match reader.read(&mut block) {
            Err(_) => return Err(RunError::Read),
            Ok(0) => return finish(alloc, handler, &buffer, &mut out, writer),
            Ok(n) => {
                let (piece, _) = block.split_at(n);
                feed(
                    alloc,
                    handler,
                    &mut buffer,
                    &mut out,
                    &mut gathered,
                    writer,
                    piece,
                )?;
            }
        }
    }
    Err(RunError::Limit)
}
