//! Integers of different types compare by their numeric values.
ghost use Rattle.std.specs.Ordering.{on, int_cmp, int_eq, as_partial_cmp};
ghost use Rattle.std.specs.Cmp.{partial_order_from_own_ties};
ghost use Rattle.std.specs.Cmp.Rules.{comparing, hashing};
ghost use Rattle.std.specs.Hash as fed;
ghost use Rattle.std.proofs.Common.{rules};
ghost use Rattle.vortex_scalar_value.specs.Numbers.{integer_of};

use crate::pvalue::PValue;
use std::cmp::Ordering;
use std::hash::{Hash, Hasher};

impl PartialEq for PValue {
    ghost eq = { on integer_of int_eq };

    ghost laws = { Prim.search (comparing, rules) };

    fn eq(&self, other: &PValue) -> bool {
        self.get() == other.get()
    }
}

impl Eq for PValue {
    ghost laws = { Prim.search (comparing, rules) };
}

impl Ord for PValue {
    ghost cmp = { on integer_of int_cmp };

    ghost total = { Prim.search (comparing, rules) };

    ghost matches_partial_cmp = { Prim.search (comparing, rules) };

    ghost matches_eq = { Prim.search (comparing, rules) };

    fn cmp(&self, other: &PValue) -> Ordering {
        self.compare(*other)
    }
}

impl PartialOrd for PValue {
    ghost partial_cmp = { as_partial_cmp (on integer_of int_cmp) };

    ghost laws = { partial_order_from_own_ties (Prim.search (comparing, rules))
        (Prim.search (comparing, rules)) };

    fn partial_cmp(&self, other: &PValue) -> Option<Ordering> {
        Some(self.cmp(other))
    }
}

impl Hash for PValue {
    ghost hash_input = { λ value. fed.i128 (integer_of value) };

    ghost respects_eq = { Prim.search (hashing, rules) };

    fn hash<H: Hasher>(&self, state: &mut H) {
        self.get().hash(state);
    }
}
