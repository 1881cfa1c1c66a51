//! Intersections of bounds.
ghost use Rattle.std.specs.Prelude.{◌≡◌};
ghost use Rattle.std.specs.Option.{ForNone, MatchOption};
ghost use Rattle.std.specs.Result.{IsErrAnd};
ghost use Rattle.vortex_stats_bound.specs.Bounds.{common_value};

/// The intersection of two bounds of one value, as Vortex's `IntersectionResult`.
#[derive(Clone, Debug, PartialEq, Eq, Drop)]
pub enum IntersectionResult<T> {
    /// The bound that both allow.
    Value(T),
    /// No value meets both.
    Empty,
}

impl<T> IntersectionResult<T> {
    /// The value, or the closure's error if it is empty.
    pub fn ok_or_else<E, F: FnOnce() -> E>(self, err: F) -> Result<T, E>
        requires { ForNone (common_value self) (F.pre err) }
        ensures { MatchOption (common_value self) (IsErrAnd result (F.post err))
            (λ value. result ≡ Ok value) }
    {
        match self {
            IntersectionResult::Value(value) => Ok(value),
            IntersectionResult::Empty => Err(err()),
        }
    }
}
