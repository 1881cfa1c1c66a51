//! Laws of the definitions alone, each as the clause of a function.
ghost use Rattle.vortex_arrays_model.specs.Laws.{
  ColumnsStepDown,
  DictionariesTake,
  EqualRowsRebuildEqually,
  ReferencedValuesAreTheRows,
  RebuildingKeepsRows,
  RebuildingTwiceIsOnce,
  RebuiltListsFollow,
  RowsAreContents,
  SlicesHaveTheirRows,
  SlicesOfSlicesAreSlices,
  TrimmingKeepsRows,
};

/// Each row of a sound array is a content of its type.
pub fn rows_are_contents()
    ensures { RowsAreContents }
{}

/// A slice has the rows from its start to its end.
pub fn slices_have_their_rows()
    ensures { SlicesHaveTheirRows }
{}

/// A slice of a slice is the slice from the sum of the starts.
pub fn slices_of_slices_are_slices()
    ensures { SlicesOfSlicesAreSlices }
{}

/// A dictionary has the value at each code, and null where a code is null.
pub fn dictionaries_take()
    ensures { DictionariesTake }
{}

/// A rebuilt list view has the same rows and the same type.
pub fn rebuilding_keeps_rows()
    ensures { RebuildingKeepsRows }
{}

/// The lists of a rebuilt view follow one another, as its flag states.
pub fn rebuilt_lists_follow()
    ensures { RebuiltListsFollow }
{}

/// Unflagged list views with equal rows are rebuilt to equal offsets, sizes and element rows.
pub fn equal_rows_rebuild_equally()
    ensures { EqualRowsRebuildEqually }
{}

/// A trimmed list view has the same rows and the same type.
pub fn trimming_keeps_rows()
    ensures { TrimmingKeepsRows }
{}

/// Rebuilding a rebuilt list view changes nothing.
pub fn rebuilding_twice_is_once()
    ensures { RebuildingTwiceIsOnce }
{}

/// The column at a path of a field, with the nulls of the struct array pushed into it, is the
/// column at that path after the field's name.
pub fn columns_step_down()
    ensures { ColumnsStepDown }
{}

/// A content other than null occurs in a dictionary's rows exactly where it occurs at a value that
/// a code refers to.
pub fn referenced_values_are_the_rows()
    ensures { ReferencedValuesAreTheRows }
{}
