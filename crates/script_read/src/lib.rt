//! Reads scripts: the bytes of a script become its `Script`, or the refusal of the first line that
//! has a reason against it.
//!
//! A script is lines that LF ends; the last one may lack it. Of a line one CR at its end is dropped,
//! and then the blanks (space and tab) at both ends. A line that is then empty, or begins with `#`,
//! is skipped, but it is counted. The others are, in this order:
//!
//! | Part | Line | How many |
//! |---|---|---|
//! | 1 | `nodes NUMBER` | one |
//! | 2 | `cluster NAME` | one or none |
//! | 3 | `workers NUMBER` | one or none |
//! | 4 | `session NAME NUMBER [hasql]` | up to 64 |
//! | 5 | `create table ..`, of which the crate `table_read` says more | up to 64 |
//! | 6 | `watch NAME` | up to 8 |
//! | 7 | `NAME: TEXT`, `stop NUMBER`, `start NUMBER`, `arm NAME row NUMBER`, `arm NAME append`, `arm NAME ship`, `barrier`, `feed` | any |
//!
//! Blanks separate the pieces of a line. A name begins with a letter or `_` and goes on with letters,
//! digits and `_`; one with an upper-case letter or more than 32 bytes is malformed. A number is digits
//! of a value below 2^64, without a zero in front of others. The colon stands directly behind its name.
//!
//! | Reason | The line |
//! |---|---|
//! | 1 | is not UTF-8 |
//! | 2 | has more than 65,535 bytes |
//! | 3 | is none of the lines above, stands in the wrong part, or names a malformed cluster |
//! | 4 | says another number of nodes than 1 to 7; or there is no line |
//! | 5 | names a session that is malformed, declared twice or not declared |
//! | 6 | says a number that is no node's |
//! | 7 | says a table that may not be, or watches none |
//! | 8 | passes a limit, or wants more stores or consumers than there are |
//! | 10 | does not run today: it says `nodes 2` to `nodes 7` or `hasql`, or is a `workers`, `watch`, `stop`, `start`, `arm`, `barrier` or `feed` line |
//!
//! Reasons 1 and 2 are tested on skipped lines too. The smallest reason of a line is told. The line of
//! the byte 67,108,865 has reason 8, whatever stands in it.
//!
//! The bytes `nodes 1 LF session a 1 LF create table t(v integer) LF a: select * from t` are a script
//! of one line to be run, line 4, in which the session `a` says the text `select * from t`.
//!
//! | Notion | Definition |
//! |---|---|
//! | what kind of line a text is, and where it may stand | `specs/Kinds.antt` |
//! | what the lines of the head say | `specs/Heads.antt` |
//! | what the lines of the body say | `specs/Bodies.antt` |
//! | what runs today | `specs/Built.antt` |
//! | the script of bytes, or the first refusal | `specs/ScriptText.antt` |
//! | what holds of every script | `specs/Lawful.antt` |
//! | what holds of every script that runs today | `specs/CanRun.antt` of `script_form` |
//! | what the names of a script are | `specs/Named.antt` of `script_form` |
#![tactic(auto)]

mod bodies;
mod built;
mod drafts;
mod heads;
mod kinds;
mod laws;
mod reading;
mod reasons;
mod said;
mod scripts;

pub use laws::{
    later_bytes_do_not_matter, scripts_are_lawful, scripts_can_run, scripts_have_names,
    scripts_have_stores,
};
pub use reading::{MOST_BYTES, read_script};
pub use script_form::{Act, BodyLine, Moment, Script, SessionLine, TableLine};
pub use scripts::ScriptStop;
