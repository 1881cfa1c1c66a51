//! The parts of a view that has its value inline.
ghost use Rattle.std.specs.Prelude.{◌≡◌, ◌≤◌, take};

/// A short value: its length in bytes, and twelve bytes that begin with it.
#[derive(Clone, Copy, Debug, PartialEq, Eq, Hash)]
pub struct Inlined {
    pub size: u32,
    pub data: [u8; 12],
    ghost short: { size ≤ 12 },
}

impl Inlined {
    /// The value, as Vortex's `Inlined::value`.
    pub fn value(&self) -> &[u8]
        ensures { result.now ≡ take self.now.size self.now.data }
    {
        &self.data[..self.size as usize]
    }
}
