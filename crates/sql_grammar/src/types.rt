//! What a text of SQL says: statements, and the definition of a table.
use crate::seq::Seq;
use byte_lists::{Bytes, Name, Text};

/// A statement.
#[derive(Drop)]
pub enum Stmt {
    /// `begin`
    Begin,
    /// `commit`
    Commit,
    /// `rollback`
    Rollback,
    /// `set transaction snapshot`
    SetSnapshot,
    /// `set transaction serializable`
    SetSerializable,
    /// `insert into table (columns) values rows`
    Insert {
        table: Name,
        /// `None` where no columns are named.
        columns: Option<Seq<Name>>,
        /// One tuple at least, each of one value at least.
        rows: Seq<Seq<Literal>>,
    },
    /// `update table set assigns where filter`
    Update {
        table: Name,
        assigns: Seq<Assign>,
        filter: Option<Test>,
    },
    /// `delete from table where filter`
    Delete {
        table: Name,
        filter: Option<Test>,
    },
    /// `select ..` or `selectv ..`
    Select(SelectStmt),
}

/// A query.
#[derive(Drop)]
pub struct SelectStmt {
    /// Whether it is `selectv`.
    pub selectv: bool,
    /// `None` for `*`.
    pub items: Option<Seq<SelectItem>>,
    /// One to three tables.
    pub tables: Seq<FromTable>,
    pub filter: Option<Test>,
    /// Empty where there is no `group by`.
    pub group: Seq<ColumnName>,
    /// Empty where there is no `order by`.
    pub order: Seq<OrderKey>,
    /// At most 9223372036854775807.
    pub limit: Option<u64>,
}

/// A table of FROM, and its alias.
#[derive(Drop)]
pub struct FromTable {
    pub table: Name,
    pub alias: Option<Name>,
}

/// A column, with its table or alias where one is written.
#[derive(Drop)]
pub struct ColumnName {
    pub qualifier: Option<Name>,
    pub name: Name,
}

/// What a query gives in a column of its answer.
#[derive(Drop)]
pub enum SelectItem {
    Column(ColumnName),
    /// `count(*)`
    Count,
    Sum(ColumnName),
    Min(ColumnName),
    Max(ColumnName),
}

/// A key of ORDER BY.
#[derive(Drop)]
pub struct OrderKey {
    pub item: SelectItem,
    /// Whether `desc` stands behind it.
    pub descending: bool,
}

/// A column of SET and its value: `first`, and then each step from left to right.
#[derive(Drop)]
pub struct Assign {
    pub column: Name,
    pub first: Operand,
    pub rest: Seq<Step>,
}

/// What is added or taken away.
#[derive(Drop)]
pub struct Step {
    pub minus: bool,
    pub operand: Operand,
}

/// A literal or a column.
#[derive(Drop)]
pub enum Operand {
    Literal(Literal),
    Column(ColumnName),
}

/// A value as it is written.
#[derive(Drop)]
pub enum Literal {
    Null,
    Int(i64),
    Text(Text),
    Blob(Bytes),
}

/// A comparison: `=`, `<>` or `!=`, `<`, `<=`, `>`, `>=`.
#[derive(Clone, Copy, PartialEq, Eq)]
pub enum Comparison {
    Eq,
    Ne,
    Lt,
    Le,
    Gt,
    Ge,
}

/// A condition.
#[derive(Drop)]
pub enum Test {
    /// Two parts at least.
    Or(Seq<Test>),
    /// Two parts at least.
    And(Seq<Test>),
    Not(Box<Test>),
    /// A condition in parentheses.
    Group(Box<Test>),
    Compare {
        op: Comparison,
        left: Operand,
        right: Operand,
    },
    IsNull {
        side: Operand,
        negated: bool,
    },
}

/// The definition of a table.
#[derive(Drop)]
pub struct CreateTable {
    pub name: Name,
    /// One part at least, in the order of the text.
    pub parts: Seq<CreatePart>,
}

/// A column or a key of a table's definition.
#[derive(Drop)]
pub enum CreatePart {
    Column {
        name: Name,
        kind: Kind,
        marks: Seq<Mark>,
    },
    Primary {
        columns: Seq<Name>,
    },
    /// `unique name (columns)` or `key name (columns)`
    Key {
        unique: bool,
        name: Name,
        columns: Seq<Name>,
    },
}

/// The type of a column.
#[derive(Clone, Copy, PartialEq, Eq)]
pub enum Kind {
    Integer,
    Text,
    Blob,
}

/// What stands behind a column's type.
#[derive(Clone, Copy, PartialEq, Eq)]
pub enum Mark {
    NotNull,
    PrimaryKey,
    Unique,
}
