//! Laws of the definitions alone, each as the clause of a function.
ghost use Rattle.vortex_arrays_builder.specs.Types.{TablesHoldPlainTypes};

/// Each type that a table can hold has a plain layout.
pub fn tables_hold_plain_types()
    ensures { TablesHoldPlainTypes }
{}
