//! What one line of a session does, on any node.
//!
//! | The session is | `begin` | `commit` | `rollback` | `set transaction ..` | any other line |
//! |---|---|---|---|---|---|
//! | in no transaction | opens one at the last position | `error state` | `error state` | `level ..` | is a transaction of its own |
//! | in one | `error state` | is decided on | `rolledback` | `error state` | is answered |
//! | behind one that was cut short | is skipped | ends it | ends it | is skipped | is skipped |
//!
//! The node says where transactions begin, what a text is answered over the rows there, and what becomes of a commit. Each of
//! these it may not be able to tell yet: then nothing came of it, and the line goes on later. In between others may commit.
//!
//! ```text
//! take_turn   --> Done:    the replies but for an outcome, where the session is then, and the transaction that comes to its commit
//!                 Begun:   a transaction of the line's own has begun; answer_own goes on with it
//!                 NotYet:  nothing came of it, and the session is where it was
//! settle      --> the outcome of that transaction, or not yet
//! ```
//!
//! So a line is told in two steps, and whoever tells it can take the memory for all that is told of a commit before the commit is
//! asked for: only one that is refused takes memory to be told.
//!
//! For example, a session that is in no transaction, has begun two, and says `insert into t values(1, 10)` on a node whose
//! history ends at position 5: its line is done with number 3 and the replies `begin 5` and `changed 1`, the session is in no
//! transaction then, and a transaction that began at position 5 and has that insert comes to its commit. Settled, it is told
//! `committed 6`, or that it conflicts, or that it is a duplicate.
//!
//! | Notion | Code | Definition |
//! |---|---|---|
//! | the node of a session, up to its commits and with them | `nodes`, `answers` | `specs/Worlds.antt` |
//! | where a session is | `states` | `specs/Doing.antt`, `specs/Views.antt` |
//! | what a line does when nobody comes between | | `specs/Step.antt` |
//! | what a line asks, without its outcome | `turns`, `replies` | `specs/Asked.antt`, `specs/Answers.antt` |
//! | what is decided at a commit | | `specs/Decisions.antt` |
//! | how an outcome is told, and when it is right | `outcomes` | `specs/Outcomes.antt` |
//! | a line that was cut short | `cuts` | `cut_by` of `specs/Step.antt` |
//! | a line while the node is away | `away` | `specs/Away.antt` |
//! | what a node answers over the rows that it has | `reading` | `IsTextAnswered` of `specs/Answers.antt` |
#![tactic(auto)]

mod answers;
mod away;
mod cuts;
mod laws;
mod nodes;
mod outcomes;
mod reading;
mod replies;
mod states;
mod turns;

pub use answers::{Begun, CommitOutcome, Told};
pub use away::{Away, AwayEffect, away_effect};
pub use cuts::cut_state;
pub use laws::a_line_is_what_it_asks_and_its_commit;
pub use nodes::{SessionNode, SessionReader};
pub use outcomes::{settle, told};
pub use reading::answer_over;
pub use states::{InTransaction, SessionState};
pub use turns::{LineEffect, OwnLine, Turn, answer_own, take_turn};
