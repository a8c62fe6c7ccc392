//! What texts of SQL leave, and that it can be done on a store.
ghost use Rattle.live_operations.specs.Coded.{LiveAreDoable, SoundHaveCodes, SoundFit, SoundAreBased, TextsLeaveSound, TextsLeaveWritten};
ghost use Rattle.live_operations.specs.Live.{TextLeavesLive, TextsLeaveLive, TransactionLeavesLive, RisingAreDistinct, UsedAreOthers, LiveStayLive, LiveStayThrough};
ghost use Rattle.live_operations.specs.Ranged.{TextLeavesRanged, TextsLeaveRanged};
ghost use Rattle.live_operations.specs.Ready.{ReadyFit, FitAreReady, AloneFit, AloneAreDoable, LaterAreDoable, NoRowsAreReady, StayReady, AloneAreFew, AloneDrawFew};

/// Over versions of which no genid stands twice in a table, and behind live operations, each text leaves live
/// operations (`one`), and so do texts one after the other (`more`): what they take away is there, with the rows
/// that they tell, and none is taken twice. So the operations of a transaction that runs alone are live (`alone`).
pub fn texts_leave_live_operations()
    ensures one { TextLeavesLive }
    ensures more { TextsLeaveLive }
    ensures alone { TransactionLeavesLive }
{}

/// Where the genids of each table rise, none stands twice.
#[tactic(auto, using(crate::proofs::StayLaws::rising_are_distinct))]
pub fn rising_genids_are_distinct()
    ensures { RisingAreDistinct }
{}

/// Live operations stay live behind operations that take away none of the versions that they take away (`one`), and
/// behind the entries of a history with such operations (`more`). They are such where they take away nothing that
/// the transaction uses, and what its operations take away is used, too (`used`).
pub fn live_operations_stay_live()
    ensures one { LiveStayLive }
    ensures more { LiveStayThrough }
    ensures used { UsedAreOthers }
{}

/// Live operations can be done on each table, where the rows that they write have codes, and the next genid after
/// them is one of 64 bits.
#[tactic(auto, using(crate::proofs::CodedLaws::live_are_doable))]
pub fn live_operations_are_doable()
    ensures { LiveAreDoable }
{}

/// Over rows whose integers are of 64 bits, and behind operations that write such rows, each text leaves operations
/// that write such rows (`one`), and so do texts one after the other (`more`).
#[tactic(auto, using(crate::proofs::RangedLaws::text_leaves_ranged, crate::proofs::RangedLaws::texts_leave_ranged))]
pub fn integers_stay_in_64_bits()
    ensures one { TextLeavesRanged }
    ensures more { TextsLeaveRanged }
{}

/// Over sound rows, and behind sound operations, texts one after the other leave sound operations, as each of them
/// does.
#[tactic(auto, using(crate::proofs::CodedLaws::texts_leave_sound))]
pub fn texts_leave_sound_operations()
    ensures { TextsLeaveSound }
{}

/// Over rows of values that can be told, texts of UTF-8 one after the other leave operations that write such rows
/// (`ops`). Where these are sound, and their integers are of 64 bits, the rows have codes from which they can be
/// read again (`coded`).
pub fn texts_leave_written_texts()
    ensures ops { TextsLeaveWritten }
    ensures coded { SoundHaveCodes }
{}

/// Sound operations write rows that fit the trees of their tables (`fit`), and name tables that are there and versions
/// of the base alone (`based`).
#[tactic(auto, using(crate::proofs::CodedLaws::sound_fit, crate::proofs::CodedLaws::sound_are_based))]
pub fn sound_operations_fit()
    ensures fit { SoundFit }
    ensures based { SoundAreBased }
{}

/// The operations of a transaction that runs alone on a state write rows that fit the trees (`fit`). They can be
/// done on that state (`alone`), and behind later entries that take away none of the versions that they take away
/// (`later`): so they can at a commit without a conflict. The next genid has to stay one of 64 bits.
///
/// No two columns of a table may have one name, and the texts have to be UTF-8.
pub fn transactions_can_be_done()
    ensures fit { AloneFit }
    ensures alone { AloneAreDoable }
    ensures later { LaterAreDoable }
{}

/// The rows of a state that texts can be answered on fit their tables (`fit`). A state of pages whose rows do, and
/// have values that can be told, is such a state (`ready`).
#[tactic(auto, using(crate::proofs::ReadyLaws::ready_fit, crate::proofs::ReadyLaws::fit_are_ready))]
pub fn rows_of_ready_states_fit()
    ensures fit { ReadyFit }
    ensures ready { FitAreReady }
{}

/// Texts can be answered on tables without rows (`none`). And where they can on a state, they can on what the
/// operations make of it that a transaction has which ran alone on such a state, the same one or another
/// (`applied`).
pub fn states_stay_ready()
    ensures none { NoRowsAreReady }
    ensures applied { StayReady }
{}

/// A transaction has 16,384 operations at most (`operations`), and draws as many genids at most, on any rows
/// (`genids`).
#[tactic(auto, using(crate::proofs::ReadyLaws::alone_are_few, crate::proofs::ReadyLaws::alone_draw_few))]
pub fn transactions_draw_few_genids()
    ensures operations { AloneAreFew }
    ensures genids { AloneDrawFew }
{}
