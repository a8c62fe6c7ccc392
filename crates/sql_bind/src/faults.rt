//! Why a statement is not bound.
ghost use Rattle.std.specs.Prelude.{◌≡◌};
ghost use Rattle.sql_bind.specs.declared.faults.BindFault.TheVariants.{NoMemory};

use std::alloc::{AllocError, AllocFailed};
use thiserror::Error;

/// Why a statement is not bound: the first of these kinds that it has. A kind is judged once the kinds before it are
/// absent.
#[derive(Clone, Copy, Debug, PartialEq, Eq, Error)]
pub enum BindFault {
    /// A table that is not in the schema.
    #[error("no table has that name")]
    Table,
    /// A column, or the table or alias before it, that no table of the statement has; in a grouped query `*`, or a
    /// plain column that is not in GROUP BY.
    #[error("no table of the statement has that column, or the query is grouped without it")]
    Column,
    /// A column without its table that two tables have; two tables of FROM under one name; a column twice in the list
    /// of INSERT or in SET.
    #[error("a name may mean two things, or stands twice")]
    Ambiguous,
    /// A comparison of operands of different types; a value of another type than its column in VALUES or SET; `+`, `-`
    /// or SUM on anything but integers and NULL.
    #[error("a value has another type than is wanted")]
    Type_,
    /// A tuple with more or fewer values than there are columns.
    #[error("a tuple has more or fewer values than there are columns")]
    Count,
    /// Want of memory.
    #[error("out of memory")]
    NoMemory,
}

impl From<AllocError> for BindFault {
    ghost from_gives = { λ _ e. e ≡ NoMemory };

    fn from(_e: AllocError) -> Self {
        BindFault::NoMemory
    }
}

impl<T: Drop> From<AllocFailed<T>> for BindFault {
    ghost from_gives = { λ _ e. e ≡ NoMemory };

    fn from(_e: AllocFailed<T>) -> Self {
        BindFault::NoMemory
    }
}
