//! A run of commands over a source and a sink.
ghost use Rattle.std.specs.Prelude.{◌≡◌, ◌≢◌, ◌⊎◌, ◌≤◌, ◌+◌, ◌-◌, ◌^◌, false, true, length, OnOk, OnErr, IfErr, IsErrOf};
ghost use Rattle.vortex_table_io.specs.Replies.{AnswersAll, AnswersPart, AnswersWhole};
ghost use Rattle.vortex_table_io.specs.Streams.{OnlyPassed, EndsIn, has_ended, has_failed};
ghost use Rattle.vortex_table_run.specs.Exact.{State, start, ExactAnswers};

use crate::session::Session;
use std::alloc::Global;
use vortex_model_laws::laws::{exactly_the_hopeless_are_skipped, steps_keep_tables};
use vortex_table_io::{Call, RunError, Sink, Source, run_lines};

/// Runs the commands of a source of lines, and writes the answer to each into a sink, ended by an
/// LF. There is no table at first.
///
/// After any list of creates, appends, joins, compactions and retypings, in whatever layouts, cuts
/// and bound lengths, each accepted scan answers exactly the plain converted rows that satisfy its
/// predicate, in order, cut to what its paths cover; each command is accepted exactly where
/// defined, else changes nothing; and for single-use comparison trees a chunk with all bounds is
/// skipped exactly when no values between them satisfy the tree. The last holds of more predicates,
/// in which an OR may have a column on both sides (`is_wide`).
///
/// An LF ends a line, and the last line may lack it. A line is a command as a JSON object:
/// `create`, `append`, `join`, `retype`, `compact`, `scan` or `describe`. The answers to the lines
/// that one read brought go out before the next read, as that may fail.
///
/// A line that is no command is answered by error 18, `BadLine`, and a command that is refused by
/// its error. Neither changes the table, and the next line is served. Where memory runs out, also
/// for holding the line, the answer is error 1, `Memory`, and nothing changes: a command that has
/// changed the table is never answered by an error.
///
/// The run ends at the first failure: of a read (`Read`), of a write or the flush, or a write that
/// took no byte (`Write`), or once 2^64 - 1 bytes were read (`Limit`).
pub fn run<R: Source, W: Sink>(
    alloc: Global,
    reader: &mut R,
    writer: &mut W,
) -> Result<(), RunError>
    requires not_ended { has_ended (R.calls reader.old) ≡ false }
    requires reads { has_failed (R.calls reader.old) ≡ false }
    requires writes { has_failed (W.calls writer.old) ≡ false }

    // Each line that was read is answered exactly, and all of the source was read.
    ensures ok { OnOk result ((last : State) × AnswersAll ExactAnswers start
        (R.history reader.old) (R.history reader.new)
        (W.history writer.old) (W.history writer.new) last) }
    ensures all_read { OnOk result ((has_ended (R.calls reader.new) ≡ true)
        × (has_failed (R.calls reader.new) ≡ false)
        × (has_failed (W.calls writer.new) ≡ false)) }
    ensures flushed { OnOk result (W.flushed writer.new ≡ W.history writer.new) }
    ensures ends { OnOk result (EndsIn Call.AtEnd (R.calls reader.old) (R.calls reader.new)
        × EndsIn Call.Flushed (W.calls writer.old) (W.calls writer.new)) }

    // At a fault, what was written is a prefix of such answers, and all of those to whole lines
    // unless it was a write that failed.
    ensures part { OnErr result (AnswersPart ExactAnswers start
        (R.history reader.old) (R.history reader.new)
        (W.history writer.old) (W.history writer.new)) }
    ensures answered { IfErr result (λ e. e ≢ RunError.Write → AnswersWhole ExactAnswers start
        (R.history reader.old) (R.history reader.new)
        (W.history writer.old) (W.history writer.new)) }

    // Nothing is read or written after a failure, and nothing was flushed before it.
    ensures read { IsErrOf result RunError.Read
        → EndsIn Call.Failed (R.calls reader.old) (R.calls reader.new)
        × OnlyPassed (W.calls writer.old) (W.calls writer.new) }
    ensures write { IsErrOf result RunError.Write
        → (OnlyPassed (R.calls reader.old) (R.calls reader.new)
        ⊎ EndsIn Call.AtEnd (R.calls reader.old) (R.calls reader.new))
        × EndsIn Call.Failed (W.calls writer.old) (W.calls writer.new) }
    ensures limit { IsErrOf result RunError.Limit
        → (length (R.history reader.old) + (2 ^ 64 - 1) ≤ length (R.history reader.new))
        × OnlyPassed (R.calls reader.old) (R.calls reader.new)
        × OnlyPassed (W.calls writer.old) (W.calls writer.new) }
{
    // Both show the prover what holds after any list of commands.
    steps_keep_tables();
    exactly_the_hopeless_are_skipped();
    let mut session = Session::new(alloc);
    run_lines(alloc, &mut session, reader, writer)
}
