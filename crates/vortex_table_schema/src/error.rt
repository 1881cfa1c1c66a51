//! Why a table refuses a command.
use std::alloc::{AllocError, AllocFailed};
use thiserror::Error;

/// Why a table refuses a command.
#[derive(Clone, Copy, Debug, PartialEq, Eq, Drop, Error)]
pub enum TableError {
    /// 1: memory ran out.
    #[error("out of memory")]
    Memory,
    /// 2: the type is no non-nullable record.
    #[error("the type is no record")]
    NotARecord,
    /// 3: a table can't hold a part of the type.
    #[error("a table can't hold the type")]
    UnkeptType,
    /// 4: two fields of a record have one name.
    #[error("two fields have one name")]
    RepeatedName,
    /// 5: the first row, by its index, that isn't valid for the batch's type.
    #[error("row {0} isn't valid for its type")]
    InvalidValue(usize),
    /// 6: the first row, by its index, that the table's type can't hold.
    #[error("row {0} can't be converted")]
    NotConvertible(usize),
    /// 7: the table would have more than `usize::MAX` rows, or a chunk more strings, bytes or lists
    /// than can be laid out.
    #[error("too many rows, or too much in a chunk")]
    Total,
    /// 8: there is no such group, or none after it to join it with.
    #[error("there is no such group")]
    NoSuchGroup,
    /// 9: the first path, by its index, with a name that isn't there.
    #[error("path {0} leads nowhere")]
    UnknownPath(usize),
    /// 10: the first path, by its index, with a step to a list's elements.
    #[error("path {0} has an element step")]
    ElementStep(usize),
    /// 11: the predicate has a placeholder for a statistic.
    #[error("the predicate has a placeholder")]
    Placeholder,
    /// 12: the predicate has a column that isn't there.
    #[error("the predicate has an unknown column")]
    UnknownColumn,
    /// 13: a column that has to be a leaf is none.
    #[error("a column is no leaf")]
    NotALeaf,
    /// 14: two operands are of unequal types.
    #[error("operands are of unequal types")]
    UnequalTypes,
    /// 15: an operand of a connective or the predicate is of another type than truth.
    #[error("an operand isn't boolean")]
    NotBoolean,
    /// 16: a LIKE ignores case, or its pattern is no literal string without a backslash.
    #[error("the LIKE isn't supported")]
    UnsupportedLike,
    /// 17: a rewrite rule of the caller failed, or answered a proof that can't be used.
    #[error("a rewrite rule failed")]
    RuleFault,
    /// 20: the predicate has a part that scans don't take.
    #[error("the predicate isn't supported")]
    UnsupportedPredicate,
    /// 21: the first entry of the bound lengths, by its index, whose path is in one before it.
    #[error("path {0} stands twice")]
    RepeatedPath(usize),
}

impl TableError {
    ghost use Rattle.std.specs.Prelude.{◌≡◌, ◌≤◌, IfSome, length, option_and_then};
    ghost use Rattle.vortex_model.specs.Refusal.{number_of, index_of};
    ghost use Rattle.vortex_table_schema.specs.Error.{refusal_of, error_name};
    ghost use Rattle.vortex_table_schema.specs.declared.error.TableError.TheVariants.{Memory, Total, RuleFault};

    /// The error's number, from 1 to 21.
    pub fn number(self) -> u8
        ensures refusal { IfSome (refusal_of self) (λ r. result ≡ number_of r) }
        ensures memory { self ≡ Memory → result ≡ 1 }
        ensures total { self ≡ Total → result ≡ 7 }
        ensures rules { self ≡ RuleFault → result ≡ 17 }
    {
        match self {
            TableError::Memory => 1,
            TableError::NotARecord => 2,
            TableError::UnkeptType => 3,
            TableError::RepeatedName => 4,
            TableError::InvalidValue(_) => 5,
            TableError::NotConvertible(_) => 6,
            TableError::Total => 7,
            TableError::NoSuchGroup => 8,
            TableError::UnknownPath(_) => 9,
            TableError::ElementStep(_) => 10,
            TableError::Placeholder => 11,
            TableError::UnknownColumn => 12,
            TableError::NotALeaf => 13,
            TableError::UnequalTypes => 14,
            TableError::NotBoolean => 15,
            TableError::UnsupportedLike => 16,
            TableError::RuleFault => 17,
            TableError::UnsupportedPredicate => 20,
            TableError::RepeatedPath(_) => 21,
        }
    }

    /// The error's name, as in answers.
    pub fn name(self) -> &'static str
        ensures name { result.now ≡ error_name self }
        ensures short { length result.now ≤ 24 }
    {
        match self {
            TableError::Memory => "Memory",
            TableError::NotARecord => "NotARecord",
            TableError::UnkeptType => "UnkeptType",
            TableError::RepeatedName => "RepeatedName",
            TableError::InvalidValue(_) => "InvalidValue",
            TableError::NotConvertible(_) => "NotConvertible",
            TableError::Total => "Total",
            TableError::NoSuchGroup => "NoSuchGroup",
            TableError::UnknownPath(_) => "UnknownPath",
            TableError::ElementStep(_) => "ElementStep",
            TableError::Placeholder => "Placeholder",
            TableError::UnknownColumn => "UnknownColumn",
            TableError::NotALeaf => "NotALeaf",
            TableError::UnequalTypes => "UnequalTypes",
            TableError::NotBoolean => "NotBoolean",
            TableError::UnsupportedLike => "UnsupportedLike",
            TableError::RuleFault => "RuleFault",
            TableError::UnsupportedPredicate => "UnsupportedPredicate",
            TableError::RepeatedPath(_) => "RepeatedPath",
        }
    }

    /// The index of the row, the path or the entry at fault.
    pub fn index(self) -> Option<usize>
        ensures { result ≡ option_and_then index_of (refusal_of self) }
    {
        match self {
            TableError::InvalidValue(row) => Some(row),
            TableError::NotConvertible(row) => Some(row),
            TableError::UnknownPath(path) => Some(path),
            TableError::ElementStep(path) => Some(path),
            TableError::RepeatedPath(entry) => Some(entry),
            _ => None,
        }
    }
}

impl From<AllocError> for TableError {
    ghost use Rattle.std.specs.Prelude.{◌≡◌};
    ghost use Rattle.vortex_table_schema.specs.declared.error.TableError.TheVariants.{Memory};

    ghost from_gives = { λ _ e. e ≡ Memory };

    fn from(_error: AllocError) -> TableError {
        TableError::Memory
    }
}

impl<T: Drop> From<AllocFailed<T>> for TableError {
    ghost use Rattle.std.specs.Prelude.{◌≡◌};
    ghost use Rattle.vortex_table_schema.specs.declared.error.TableError.TheVariants.{Memory};

    ghost from_gives = { λ _ e. e ≡ Memory };

    fn from(_error: AllocFailed<T>) -> TableError {
        TableError::Memory
    }
}
