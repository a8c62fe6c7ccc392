//! Each way in which a node comes up again happens in a legal history.
#![tactic(auto)]

ghost use Rattle.cluster_consensus.specs.Histories.{Legal};
ghost use Rattle.cluster_restarts.specs.WaysUp.{as_left, with_promise, with_append, with_grow, with_take, with_lead, learned};

/// Written histories with each way in which a node comes up again, and with a follower that learns, are legal.
pub fn each_way_up_is_legal()
    ensures left { Legal 3 as_left }
    ensures promise { Legal 3 with_promise }
    ensures append { Legal 3 with_append }
    ensures grow { Legal 3 with_grow }
    ensures take { Legal 3 with_take }
    ensures lead { Legal 3 with_lead }
    ensures learned { Legal 3 learned }
{}
