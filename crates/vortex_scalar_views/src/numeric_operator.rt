//! Operators on integers.

/// An operator on two integers, as Vortex's `NumericOperator`.
#[derive(Clone, Copy, Debug, PartialEq, Eq)]
pub enum NumericOperator {
    Add,
    Sub,
    Mul,
    /// The quotient, rounded toward zero.
    Div,
}
