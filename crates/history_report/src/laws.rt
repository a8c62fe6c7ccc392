//! The law of lines that a history tells.
ghost use Rattle.std.specs.Prelude.{◌≡◌, ℕ, List};
ghost use Rattle.actor_trace.specs.History.{IsLegal};
ghost use Rattle.cluster_events.specs.Parts.{lines};
ghost use Rattle.cluster_events.specs.Settings.{Setting};
ghost use Rattle.cluster_steps.specs.Guards.{MayTakeStep};
ghost use Rattle.cluster_steps.specs.Named.{steps};
ghost use Rattle.cluster_steps.specs.declared.events.Event.{Event};
ghost use Rattle.history_report.specs.Told.{told_by, CallsSessions};
ghost use Rattle.script_form.specs.declared.scripts.SessionLine.{SessionLine};

/// What a run's history tells are the lines that it printed, where its sessions are called as in the script.
pub fn told_lines_are_those_of_the_history()
    ensures { (G : Setting) (sessions : List SessionLine) (h : List (ℕ × Event)) → CallsSessions G sessions
        → IsLegal (λ g i e. MayTakeStep G g i e) h → (told_by G.nodes sessions h).lines ≡ lines G (steps G h) }
{}
