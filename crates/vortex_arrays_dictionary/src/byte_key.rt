//! Bytes as keys.
use std::hash::{Hash, Hasher};

/// Bytes as a key, compared and hashed without a copy.
#[derive(Clone, Copy)]
pub(crate) struct ByteKey<'a> {
    pub(crate) bytes: &'a [u8],
}

impl<'a> PartialEq for ByteKey<'a> {
    ghost use Rattle.std.specs.Str.{bytes_eq};
    ghost use Rattle.std.specs.Cmp.{partial_equiv_from_equiv};
    ghost use Rattle.std.proofs.lemmas.Cmp.{nat_list_eq_equiv};

    ghost eq = { λ x y. bytes_eq x.bytes.now y.bytes.now };

    ghost laws = { record {
      symm = λ x y. nat_list_eq_equiv.symm x.bytes.now y.bytes.now;
      trans = λ x y z. (partial_equiv_from_equiv nat_list_eq_equiv).trans x.bytes.now y.bytes.now
          z.bytes.now;
    } };

    fn eq(&self, other: &ByteKey<'a>) -> bool {
        self.bytes == other.bytes
    }
}

impl<'a> Eq for ByteKey<'a> {
    ghost use Rattle.std.proofs.lemmas.Cmp.{nat_list_eq_equiv};

    ghost laws = { record {
      refl = λ x. nat_list_eq_equiv.refl x.bytes.now;
      symm = λ x y. nat_list_eq_equiv.symm x.bytes.now y.bytes.now;
      congr = λ x y z. nat_list_eq_equiv.congr x.bytes.now y.bytes.now z.bytes.now;
    } };
}

impl<'a> Hash for ByteKey<'a> {
    ghost use Rattle.std.specs.Prelude.{[], ◌∷◌};
    ghost use Rattle.std.proofs.Common.{ap};
    ghost use Rattle.std.specs.Cmp.Lexicographic.{bytes_decides};

    ghost hash_input = { λ x. x.bytes.now ∷ [] };

    ghost respects_eq = { λ x y h. ap (λ bs. bs ∷ [])
        ((bytes_decides x.bytes.now y.bytes.now).0 h) };

    fn hash<H: Hasher>(&self, state: &mut H) {
        state.write(self.bytes);
    }
}
