//! `colscan` keeps one table of columns and answers commands: one JSON line in, one JSON line out.
#![tactic(auto)]

use std::alloc::{AllocError, Global};
use std::process::ExitCode;
use vortex_table_io::{RunError, Tap};
use vortex_table_run::commands::run;

/// The message on standard error of a run that failed.
fn fault(error: RunError) -> &'static str {
    match error {
        RunError::Read => "colscan: read failed",
        RunError::Write => "colscan: write failed",
        RunError::Limit => "colscan: input too long",
    }
}

/// A block of 16 MB. The GNU C library maps one of this size by itself, and once it has it back
/// keeps smaller ones that are freed, so that a line has what the one before it had used, and pages
/// don't go to the system and back. Not inlined, as a request that nobody uses is left out then.
#[inline(never)]
fn large_block(alloc: Global) -> Result<Vec<u8>, AllocError> {
    Vec::with_capacity(alloc, 16_000_000)
}

fn main(rt: HostRuntime) -> ExitCode {
    drop(large_block(rt.alloc()));
    let mut reader = Tap::new(rt.stdin());
    let mut writer = Tap::new(rt.stdout());
    match run(rt.alloc(), &mut reader, &mut writer) {
        Ok(()) => ExitCode::SUCCESS,
        Err(error) => {
            let _ = eprintln!(rt; "{}", fault(error));
            ExitCode::FAILURE
        }
    }
}
