//! Histories of a cluster that are written out: legal ones, and wrong ones.
//!
//! Three nodes over empty stores, one session with one line that inserts a row. The session is at node 1, which is the
//! first leader, and goes on at another node.
//!
//! ```text
//! begin 1, changed 1, sent ----- appended, durable ----------------------- committed 2
//!                          \---- appended, sent again: Repeat at 2 -------- committed 2
//!                          \---- a follower has it, node 1 falls, node 2 leads, Move 2, Repeat at 2 --- committed 2
//!                          \---- a follower has it, node 1 falls, lost 1 1, node 2 leads with the entry
//!                          \---- nobody has it, the arm fires, node 1 is stopped, node 2 leads, Move 2,
//!                                appended by node 2 ----------------------- committed 2, node 1 drops its own
//! ```
//!
//! The functions here run nothing: their clauses are what is proved.
#![tactic(auto)]

ghost use Rattle.std.specs.Prelude.{ℕ, ◌≡◌, [], ◌∷◌, true, false, List};
ghost use Rattle.cdb_values.specs.declared.replies.Reply.TheVariants as reply;
ghost use Rattle.cluster_consensus.specs.Events.NodeEvent.{Append, Down};
ghost use Rattle.cluster_consensus.specs.Durable.{DurableIn};
ghost use Rattle.cluster_events.specs.ByScript.{AllHeed};
ghost use Rattle.cluster_events.specs.Guards.{IsLegalHistory};
ghost use Rattle.cluster_events.specs.Parts.{lines, field};
ghost use Rattle.cluster_events.specs.Parts.ActorEvent.{Node, Settle, Ask, Begun, Note, Barrier, Fed, Say, Send, Finish, Move, Stop, Repeat, Order, Obeyed, Fire, FedAgain};
ghost use Rattle.cluster_stories.specs.Failover.{repeated, repeated_on, fallen, come_back, fired, appended_on, tail_dropped, commit_on};
ghost use Rattle.cluster_stories.specs.Story.{given, given_as, barred, committed, setup, commit, script, led, set_up, begun, its_sent, sent};
ghost use Rattle.cluster_stories.specs.Story.{its_id};
ghost use Rattle.report_text.specs.declared.reports.Line.TheVariants as line;

/// A line begins, is answered, sent, appended and committed.
pub fn a_commit_is_told()
    ensures legal { IsLegalHistory given committed }
    ensures lines { lines given committed
        ≡ line.Session (115 ∷ []) 1 (reply.Begin 1) ∷ line.Session (115 ∷ []) 1 (reply.Changed 1)
        ∷ line.Session (115 ∷ []) 1 (reply.Committed 2) ∷ [] }
{}

/// It is sent to its leader again, which tells where its entry stands: the same lines.
pub fn a_commit_is_repeated()
    ensures legal { IsLegalHistory given repeated }
    ensures lines { lines given repeated ≡ lines given committed }
{}

/// Its leader falls when a follower has the entry. This one leads next, the session moves to it, and it tells where
/// the entry stands.
pub fn a_session_moves()
    ensures legal { IsLegalHistory given repeated_on }
    ensures lines { lines given repeated_on
        ≡ line.Session (115 ∷ []) 1 (reply.Begin 1) ∷ line.Session (115 ∷ []) 1 (reply.Changed 1) ∷ line.Down 1 1 true
        ∷ line.Session (115 ∷ []) 1 (reply.Committed 2) ∷ [] }
{}

/// The session does not survive the fall of its node: it is told that its transaction is lost. But a follower has the
/// entry and leads next, so it is durable.
pub fn a_lost_commit_comes_back()
    ensures legal { IsLegalHistory (given_as false) come_back }
    ensures lines { lines (given_as false) come_back
        ≡ line.Session (115 ∷ []) 1 (reply.Begin 1) ∷ line.Session (115 ∷ []) 1 (reply.Changed 1) ∷ line.Down 1 1 true
        ∷ line.Session (115 ∷ []) 1 (reply.Lost 1 1) ∷ [] }
    ensures durable { DurableIn 3 (field come_back).core 2 (setup ∷ commit ∷ []) }
{}

/// The arm fires when the leader has appended, and the leader is stopped with an entry that nobody took. The next
/// leader appends it anew; the first one is started again, and drops its own.
pub fn an_arm_fires()
    ensures legal { IsLegalHistory given tail_dropped }
    ensures by_script { AllHeed given script.body tail_dropped }
    ensures lines { lines given tail_dropped
        ≡ line.Session (115 ∷ []) 1 (reply.Begin 1) ∷ line.Session (115 ∷ []) 1 (reply.Changed 1) ∷ line.Down 1 1 false
        ∷ line.Session (115 ∷ []) 1 (reply.Committed 2) ∷ line.Up 1 ∷ [] }
    ensures dropped { ((field tail_dropped).core.nodes 1).log ≡ setup ∷ commit_on ∷ [] }
{}

/// Histories that are not legal.
///
/// Of nodes: an entry that nobody asked for, a second setup, a commit that is appended twice, one that was settled before, a
/// conflict with an entry that is not there, an entry that is repeated and is not there, a node that is stopped and is down.
///
/// Of sessions: a begin that was not asked for, a reply that the rows do not give, a line outside a transaction that is
/// answered inside one, a commit that is sent before its replies are told, a loss without a line that a node went down, a
/// session that moves and whose node did not go down, one that passes over a node that is up, one that asks for a begin
/// before the barrier before its line is told.
///
/// Of the operator: a barrier before a session's line that stands before it, a feed that repeats and was not asked for.
pub fn wrong_histories_are_not_legal()
    ensures unasked { IsLegalHistory given ((1, Node (Append commit)) ∷ set_up) → ⊥ }
    ensures set_up_twice { IsLegalHistory given ((1, Node (Append setup)) ∷ set_up) → ⊥ }
    ensures untrue { IsLegalHistory given ((4, Say (reply.Changed 2)) ∷ begun) → ⊥ }
    ensures appended_twice { IsLegalHistory given ((1, Node (Append commit)) ∷ (1, Node (Append commit)) ∷ sent) → ⊥ }
    ensures lost_for_nothing { IsLegalHistory given ((4, Finish (reply.Lost 1 1)) ∷ sent) → ⊥ }
    ensures not_there { IsLegalHistory given ((1, Repeat its_id 2) ∷ sent) → ⊥ }
    ensures appended_settled { IsLegalHistory given ((1, Node (Append commit)) ∷ (1, Settle its_id (reply.ConflictGenid 2 [] 1)) ∷ sent) → ⊥ }
    ensures refused_wrongly { IsLegalHistory given ((1, Settle its_id (reply.ConflictGenid 2 [] 1)) ∷ sent) → ⊥ }
    ensures stopped_down { IsLegalHistory given ((1, Stop) ∷ (1, Stop) ∷ led) → ⊥ }
    ensures begun_unasked { IsLegalHistory given ((4, Begun 1 1) ∷ set_up) → ⊥ }
    ensures noted_inside { IsLegalHistory given ((4, Note) ∷ begun) → ⊥ }
    ensures sent_early { IsLegalHistory given ((4, Send its_sent) ∷ begun) → ⊥ }
    ensures barred_early { IsLegalHistory given ((0, Barrier) ∷ set_up) → ⊥ }
    ensures unfed { IsLegalHistory given ((0, FedAgain 0) ∷ sent) → ⊥ }
    ensures moved_for_nothing { IsLegalHistory given ((4, Move 2) ∷ sent) → ⊥ }
    ensures moved_too_far { IsLegalHistory given ((4, Move 3) ∷ fallen) → ⊥ }
    ensures went_on_barred { IsLegalHistory barred ((4, Ask 7) ∷ set_up) → ⊥ }
{}

/// Histories that are not by the script: a stop without a line of it, an order that is told twice, a feed out of its
/// turn, a line that is obeyed before it is ordered, a start that is taken for heeded by a fault before its order; an arm
/// that fires twice, a session that goes on before the node is down that its arm stops.
pub fn wrong_histories_are_not_by_the_script()
    ensures unordered { AllHeed given script.body ((1, Stop) ∷ led) → ⊥ }
    ensures fired_twice { AllHeed given script.body ((4, Fire 0 1) ∷ fired) → ⊥ }
    ensures obeyed_unordered { AllHeed given script.body ((0, Obeyed) ∷ appended_on) → ⊥ }
    ensures ordered_twice { AllHeed given script.body ((0, Order) ∷ (0, Order) ∷ led) → ⊥ }
    ensures fed_out_of_turn { AllHeed given script.body ((0, Fed 1 1) ∷ led) → ⊥ }
    ensures went_on_armed { AllHeed given script.body ((4, Send its_sent) ∷ fired) → ⊥ }
    ensures fault_before_the_order { AllHeed given script.body ((0, Obeyed) ∷ (0, Order) ∷ (1, Node Down) ∷ led) → ⊥ }
{}
