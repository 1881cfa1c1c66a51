//! How often each value of a dictionary occurs in its rows.
ghost use Rattle.std.specs.Prelude.{◌≡◌, ◌<◌, ◌+◌, ◌^◌, length, slice_index_or, sum};

/// How often codes refer to each value, and the number of null codes.
#[derive(Drop)]
pub(crate) struct Counts {
    pub(crate) nulls: usize,
    pub(crate) of_values: Vec<usize>,
    ghost few: { nulls + sum of_values.items < 2 ^ 64 },
}

impl Counts {
    /// The number of values.
    pub(crate) fn len(&self) -> usize
        ensures count { result ≡ length self.now.of_values.items }
        ensures few { self.now.nulls + sum self.now.of_values.items < 2 ^ 64 }
    {
        self.of_values.len()
    }

    /// How often codes refer to the value.
    pub(crate) fn of_value(&self, j: usize) -> usize
        requires { j < length self.now.of_values.items }
        ensures { result ≡ slice_index_or self.now.of_values.items j 0 }
    {
        self.of_values[j]
    }
}
