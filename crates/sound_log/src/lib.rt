//! Whether a log is sound: one that a node may take up and go on with.
//!
//! A store that is opened has a log that anybody may have written. Its records fit the pages that those before them
//! left, and nothing else is known of it: `sound_state` tells whether it may be kept, and what its rows are. A log of three entries over the
//! table `t`, which has a unique key; its transactions are named as (generation, session, number):
//!
//! ```text
//! position  entry                                           pages stand for     identities
//! 1         setup   t                                       no row              none
//! 2         commit  (1, a, 1)   insert 1: (1, 10)           1: (1, 10)          (1, a, 1)
//! 3         commit  (2, a, 1)   update 1: to 2: (1, 11)     2: (1, 11)          (1, a, 1) (2, a, 1)
//! ```
//!
//! Where generation 2 is the accepted one it is sound. With one of these changes it is not:
//!
//! ```text
//! generation 1 is the accepted one                          (2, a, 1) began above it
//! entry 3 is (1, a, 1) too                                  an identity comes twice
//! entry 3 is a setup                                        a setup stands behind the first entry
//! entry 1 is missing                                        the first entry is no setup
//! entry 3 has no record of the key's tree                   the pages stand for no state
//! ```
//!
//! The tests go from the cheapest to the dearest: each entry is looked at once, then the identities are put
//! into a set, and at last the trees are walked. What the entries say that they change is not looked at: a log is sound by
//! its pages.
//!
//! The rows that are read then are of bytes, as their types say. No definition of pages says it, so `sound_state` tells it.
//!
//! | Notion | Code | Definition |
//! |---|---|---|
//! | identities, and that they are apart | `identities` | `ids_in`, `AreApart` of `specs/Identities.antt` |
//! | the entries behind the first | `sound` | `is_begun_by` of `specs/Begun.antt` |
//! | pages that stand for a good state | `state_of` of `table_state` | `HasState` there |
//! | rows of bytes | `bytes` | `AreOfBytes` of `specs/Bytes.antt` |
//! | a sound log, and its rows | `sound_state` | `IsSound`, `IsStateOf` of `specs/Sound.antt` |
#![tactic(auto)]

mod bytes;
mod identities;
mod laws;
mod sound;

pub use laws::{
    sound_logs_go_on, sound_logs_grow, sound_logs_stay_sound, standing_logs_have_their_state,
};
pub use sound::sound_state;
