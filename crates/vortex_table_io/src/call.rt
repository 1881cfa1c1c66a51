//! How a call of a source or a sink ends.

/// How a call of a source or a sink ended.
#[derive(Clone, Copy, Drop)]
pub enum Call {
    /// A read or a write that moved some bytes, or whose buffer was empty.
    Passed,
    /// A read into a buffer with room that returned 0.
    AtEnd,
    /// A flush that succeeded.
    Flushed,
    /// A call that failed, also one that was interrupted, or a write that took none of some bytes.
    Failed,
}
