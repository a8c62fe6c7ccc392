//! Worked facts: statements in a schema of two tables and their binding, each the contract of a function that does nothing.
ghost use Rattle.std.specs.Prelude.{◌≡◌, Ok, Err};
ghost use Rattle.sql_bind.specs.Binding.{binding};
ghost use Rattle.sql_bind.specs.Faults.{UnknownColumn, AmbiguousName, WrongType};
ghost use Rattle.sql_bind.specs.Worked.{tables, joined, joined_bound, two_ids, outside_the_group, in_another_order, in_order, of_two_errors, sum_of_nulls};

/// A query of two tables, one of them under an alias, that compares a text with NULL.
pub fn a_join_is_bound()
    ensures { binding tables joined ≡ Ok joined_bound }
{}

/// A list of INSERT in another order than the table's.
pub fn a_row_has_the_order_of_the_table()
    ensures { binding tables in_another_order ≡ Ok in_order }
{}

/// An ambiguous column is told before a comparison of two types.
pub fn a_name_before_a_type()
    ensures { binding tables two_ids ≡ Err AmbiguousName }
{}

/// A wrong type is told before a wrong count.
pub fn a_type_before_a_count()
    ensures { binding tables of_two_errors ≡ Err WrongType }
{}

/// A plain column beside an aggregate.
pub fn a_plain_column_beside_an_aggregate()
    ensures { binding tables outside_the_group ≡ Err UnknownColumn }
{}

/// A sum of NULLs is an integer, and is refused for a text.
pub fn a_sum_of_nulls_is_an_integer()
    ensures { binding tables sum_of_nulls ≡ Err WrongType }
{}
