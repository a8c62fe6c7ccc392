//! The grammar of SQL: what a statement and the definition of a table are, and which tokens spell them.
//!
//! The grammar, line for line as `specs/Grammar` has it (`[x]` may be left out, `{x}` comes any number of times):
//!
//! | Rule | Spelled by |
//! |---|---|
//! | statement | one `[";"]` |
//! | one | `"begin"`, `"commit"`, `"rollback"`, set, insert, update, delete or select |
//! | set | `"set" "transaction" ("snapshot" \| "serializable")` |
//! | insert | `"insert" "into"` name [names] `"values"` tuple {`","` tuple} |
//! | update | `"update"` name `"set"` setting {`","` setting} [where] |
//! | delete | `"delete" "from"` name [where] |
//! | select | `("select" \| "selectv")` (`"*"` or item {`","` item}) from [where] [group] [order] [limit] |
//! | from | `"from"` source {`","` source}, three sources at most |
//! | source | name, or name `["as"]` name |
//! | group | `"group" "by"` column {`","` column} |
//! | order | `"order" "by"` key {`","` key}, a key being item `["asc" \| "desc"]` |
//! | limit | `"limit"` number, at most 9223372036854775807 |
//! | names, tuple | names, or literals, in parentheses with commas between them |
//! | setting | name `"="` operand {(`"+"` or `"-"`) operand} |
//! | item | column, `"count" "(" "*" ")"`, or `("sum" \| "min" \| "max") "("` column `")"` |
//! | where | `"where"` or |
//! | or, and | and {`"or"` and}; not {`"and"` not} |
//! | not | `"not"` not, `"("` or `")"`, or operand test; the first two open a level, of at most 100 |
//! | test | a comparison sign and an operand, or `"is" ["not"] "null"` |
//! | operand | literal or column, a column being name `["."` name`]` |
//! | literal | `["-"]` number, text, blob or `"null"`; 9223372036854775808 only behind the minus |
//! | create | `"create" "table"` name `"("` part {`","` part} `")" [";"]` |
//! | part | name type {mark}, `"primary" "key"` names, or `("unique" \| "key")` name names |
//! | type | `"integer"`, `"int"`, `"text"` or `"blob"` |
//! | mark | `"not" "null"`, `"primary" "key"` or `"unique"` |
//!
//! A name is a word that is not reserved, of at most 32 bytes. One part of an `or` or an `and` stands as itself; a
//! condition in parentheses is a `Group`.
//!
//! A worked example: `delete from t where a = 1` is the tokens `delete`, `from`, the name `t`, `where`, the name `a`,
//! `=` and the number 1, and spells `Delete { table: t, filter: Compare { op: Eq, left: a, right: 1 } }`.
//!
//! `specs/Trees` says what such a value is apart from where it lies in memory, `specs/Views` what a value of the code
//! says, `specs/Readers` how each rule is read, and `proofs/` that these readers are exact for the grammar.
#![tactic(auto)]

mod seq;
mod types;

pub use seq::Seq;
pub use types::{
    Assign, ColumnName, Comparison, CreatePart, CreateTable, FromTable, Kind, Literal, Mark,
    Operand, OrderKey, SelectItem, SelectStmt, Step, Stmt, Test,
};
