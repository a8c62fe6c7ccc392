ghost use Rattle.std.specs.Prelude.{◌≡◌};
ghost use Rattle.std.specs.Str.{is_utf8};
ghost use Rattle.script_read.specs.Built.{runs, is_built};

use super::drafts::as_text;
use super::said::Said;
use script_form::Act;

/// Whether what a line says runs today.
pub fn runs_today(said: &Said) -> bool
    ensures { result ≡ is_built said.now }
{
    match said {
        Said::Nodes(nodes) => *nodes == 1,
        Said::Cluster(_) => true,
        Said::Workers(_) => false,
        Said::Session(session) => !session.hasql,
        Said::Watch(_) => false,
        Said::Runs(act) => act_runs(act),
    }
}

/// Whether a line to be run runs today.
fn act_runs(act: &Act) -> bool
    ensures { result ≡ runs act.now }
{
    match act {
        Act::Say { text, .. } => is_text(text.as_bytes()),
        Act::Stop(_) => false,
        Act::Start(_) => false,
        Act::Arm { .. } => false,
        Act::Barrier => false,
        Act::Feed => false,
    }
}

/// Whether bytes are UTF-8.
fn is_text(bytes: &[u8]) -> bool
    ensures { result ≡ is_utf8 bytes.now }
{
    as_text(bytes).is_some()
}
