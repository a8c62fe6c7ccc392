//! What a statement means in a schema: tables and columns by their places, values as rows hold them.
use cdb_values::{Level, List, Row, Value};
use sql_grammar::Seq;

/// A column: the place of its table in FROM, and its own place in that table, both from 0.
///
/// In a statement with one table, as UPDATE and DELETE, the table has place 0.
#[derive(Clone, Copy, PartialEq, Eq, Debug)]
pub struct BoundColumn {
    pub place: u8,
    pub column: u8,
}

/// A value or a column.
#[derive(Clone, Drop)]
pub enum BoundOperand {
    Value(Value),
    Column(BoundColumn),
}

/// A comparison: `=`, `<>`, `<`, `<=`, `>`, `>=`.
#[derive(Clone, Copy, PartialEq, Eq, Debug)]
pub enum Cmp {
    Eq,
    Ne,
    Lt,
    Le,
    Gt,
    Ge,
}

/// A condition, of the shape in which it was written.
#[derive(Drop)]
pub enum Condition {
    /// One part at least holds.
    Or(Seq<Condition>),
    /// Each part holds.
    And(Seq<Condition>),
    Not(Box<Condition>),
    /// A condition in parentheses.
    Group(Box<Condition>),
    Compare {
        op: Cmp,
        left: BoundOperand,
        right: BoundOperand,
    },
    IsNull {
        side: BoundOperand,
        negated: bool,
    },
}

/// A statement in a schema. A table is its place in the schema, from 0.
#[derive(Drop)]
pub enum Bound {
    Begin,
    Commit,
    Rollback,
    /// How the transaction reads.
    SetLevel(Level),
    Insert {
        table: u16,
        /// Each with one value for each column of the table, in the table's order.
        rows: List<Row>,
    },
    Update {
        table: u16,
        assigns: List<BoundAssign>,
        filter: Option<Condition>,
    },
    Delete {
        table: u16,
        filter: Option<Condition>,
    },
    Select(BoundSelect),
}

/// A column of SET, by its place in the table, and its value: `first`, and then each step from left to right.
#[derive(Clone, Drop)]
pub struct BoundAssign {
    pub column: u8,
    pub first: BoundOperand,
    pub rest: List<BoundStep>,
}

/// What is added or taken away.
#[derive(Clone, Drop)]
pub struct BoundStep {
    pub minus: bool,
    pub operand: BoundOperand,
}

/// A query.
#[derive(Drop)]
pub struct BoundSelect {
    /// Whether it is `selectv`.
    pub selectv: bool,
    /// What each row of the answer holds. A `*` is here all columns of the tables, in FROM order.
    pub items: List<BoundItem>,
    /// The tables of FROM, in order.
    pub tables: List<u16>,
    pub filter: Option<Condition>,
    /// Empty where there is no `group by`.
    pub group: List<BoundColumn>,
    /// Empty where there is no `order by`.
    pub order: List<BoundKey>,
    pub limit: Option<u64>,
}

/// What a query gives in a column of its answer.
#[derive(Clone, Copy, PartialEq, Eq, Debug)]
pub enum BoundItem {
    Column(BoundColumn),
    /// `count(*)`
    Count,
    Sum(BoundColumn),
    Min(BoundColumn),
    Max(BoundColumn),
}

/// A key of ORDER BY.
#[derive(Clone, Copy, PartialEq, Eq, Debug)]
pub struct BoundKey {
    pub item: BoundItem,
    /// Whether `desc` stands behind it.
    pub descending: bool,
}
