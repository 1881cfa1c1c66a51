//! Map types.
ghost use Rattle.std.specs.Prelude.{◌≡◌, ◌≢◌, IfOk, OnOk, IfErr};
ghost use Rattle.vortex_model.specs.LogicalType.{nullability_of, non_nullable, nullable};
ghost use Rattle.vortex_dtype_ptype.specs.declared.error.DTypeError.TheVariants.{Memory, MapShape};
ghost use Rattle.vortex_dtype_core.specs.View.{type_of, entries_in};

use crate::dtype::DType;
use std::alloc::{AllocError, Global};
use std::rc::Rc;
use vortex_dtype_ptype::error::DTypeError;

/// The key and value types of a map, as Vortex's `MapDType`. A clone shares them.
#[derive(Drop)]
#[cycle(dtype)]
pub struct MapDType {
    pub(crate) entries: Rc<MapEntries>,
}

/// The types of a map's entries.
#[derive(Drop)]
#[cycle(dtype)]
pub struct MapEntries {
    pub(crate) key: DType,
    pub(crate) value: DType,
    pub(crate) keys_sorted: bool,
}

impl MapDType {
    /// A map type, or `DTypeError::MapShape` where the key type is nullable.
    #[tactic(auto, using(crate::proofs::Views::one_level))]
    pub fn try_new(
        alloc: Global,
        key: DType,
        value: DType,
        keys_sorted: bool,
    ) -> Result<MapDType, DTypeError>
        ensures made { IfOk result
            (λ map. entries_in map
            ≡ record { key = type_of key; value = type_of value; sorted = keys_sorted }) }
        ensures accepted { OnOk result (nullability_of (type_of key) ≡ non_nullable) }
        ensures refused { IfErr result (λ e. e ≢ Memory → (e ≡ MapShape)
            × (nullability_of (type_of key) ≡ nullable)) }
    {
        if key.is_nullable() {
            return Err(DTypeError::MapShape);
        }
        let entries = MapEntries {
            key,
            value,
            keys_sorted,
        };
        let entries = Rc::new(alloc, entries)?;
        Ok(MapDType { entries })
    }

    #[tactic(auto, using(crate::proofs::Views::one_level))]
    pub fn key_dtype(&self) -> &DType
        ensures { type_of result.now ≡ (entries_in self.now).key }
    {
        &self.entries.key
    }

    #[tactic(auto, using(crate::proofs::Views::one_level))]
    pub fn value_dtype(&self) -> &DType
        ensures { type_of result.now ≡ (entries_in self.now).value }
    {
        &self.entries.value
    }

    /// Whether the keys of each map are sorted. Nothing tests this of values.
    #[tactic(auto, using(crate::proofs::Views::one_level))]
    pub fn keys_sorted(&self) -> bool
        ensures { result ≡ (entries_in self.now).sorted }
    {
        self.entries.keys_sorted
    }
}

impl Clone for MapDType {
    ghost is_clone = { λ old new. entries_in new ≡ entries_in old };

    #[tactic(auto, using(crate::proofs::Views::one_level))]
    fn clone(&self) -> Result<MapDType, AllocError> {
        let entries = self.entries.clone()?;
        Ok(MapDType { entries })
    }
}
