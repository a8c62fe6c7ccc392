//! Binding: what a statement means in a schema, or the first kind of error that it has there.
//!
//! A statement names tables and columns. Bound, it has places in the place of names:
//!
//! | Written | Bound |
//! |---|---|
//! | a table | its place in the schema, from 0 |
//! | a column | the place of its table in FROM and its place in that table, each from 0 and one byte |
//! | a literal | the value |
//! | `*` | all columns of the tables, in FROM order |
//! | a tuple of INSERT | a row: one value for each column of the table, in its order, NULL where the list leaves one out |
//! | a condition | a condition of the same shape |
//! | `selectv` | a query with its flag |
//!
//! An error is the first of these kinds that the statement has. A kind is judged once the kinds before it are absent.
//!
//! | Kind | What is wrong |
//! |---|---|
//! | `Table` | a table that is not in the schema |
//! | `Column` | a column, or a table or alias before one, that no table of the statement has; in a grouped query `*`, or a plain column in the items or in ORDER BY that is not in GROUP BY |
//! | `Ambiguous` | a column without its table that two tables have; two tables of FROM under one name; a column twice in the list of INSERT or in SET |
//! | `Type_` | a comparison of operands of different types; a value of another type than its column's in VALUES or SET; `+`, `-` or SUM on anything but integers and NULL |
//! | `Count` | a tuple with more or fewer values than there are columns |
//!
//! NULL has no type and goes with each. A query is grouped where it has GROUP BY, or an aggregate in its items or in
//! ORDER BY. An alias hides the name of its table. While a column of GROUP BY may still mean two columns, a plain column
//! is in GROUP BY if the two names may mean one column. What `+` and `-` make is an integer, also of NULL. A value of a
//! tuple that has no column has no type to miss.
//!
//! Two examples, in a schema of the tables `t (id int, v text)` and `u (id int)`:
//!
//! ```text
//! select v, x.id from t, u x where v = null      select 0.1, 1.0 from 0, 1 where 0.1 = NULL
//! select id from t, u where v = 1                Ambiguous, though v = 1 has different types
//! ```
//!
//! FROM has at most three tables in a statement that is read, and a table of a schema at most 64 columns. `bind` takes
//! any statement and any schema: what stands past the place 255 has no place there and cannot be named.
//!
//! | Notion | Definition |
//! |---|---|
//! | a bound statement as data alone | `specs/Bound` |
//! | what a value of the code says | `specs/Views`; of the tables of a statement `specs/Seen` |
//! | the tables of a statement, and what a name may mean | `specs/Scope` |
//! | the five kinds of errors, as tests | `specs/Faults` |
//! | what a statement means | `specs/Meaning` |
//! | the binding of a statement | `specs/Binding` |
//! | what an answer of the code says of it | `specs/Answers` |
#![tactic(auto)]

mod binding;
mod columns;
mod conditions;
mod facts;
mod faults;
mod inserts;
mod items;
mod kinds;
mod names;
mod queries;
mod scope;
mod sources;
mod types;
mod updates;

pub use binding::bind;
pub use facts::{
    a_join_is_bound, a_name_before_a_type, a_plain_column_beside_an_aggregate,
    a_row_has_the_order_of_the_table, a_sum_of_nulls_is_an_integer, a_type_before_a_count,
};
pub use faults::BindFault;
pub use types::{
    Bound, BoundAssign, BoundColumn, BoundItem, BoundKey, BoundOperand, BoundSelect, BoundStep,
    Cmp, Condition,
};
