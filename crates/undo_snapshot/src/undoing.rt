ghost use Rattle.std.specs.Prelude.{◌≡◌, IfOk, OnOk};
ghost use Rattle.phys_log.specs.Undone.{undone};
ghost use Rattle.log_replay.specs.Chains.{CanUndo};

use log_replay::Grant;
use page_store::{Page, undo};
use phys_log::LogRecord;
use std::alloc::AllocError;

/// Undoes records on a page, in their order.
fn undo_each(page: &mut Page, chain: &[LogRecord]) -> Result<(), AllocError>
    requires { CanUndo page.old chain.now }
    ensures { OnOk result (page.new ≡ undone page.old chain.now) }
{
    let mut rest = chain;
    'back: while let Some((newest, older)) = rest.split_first() {
        undo(page, &newest.edit, newest.prev)?;
        rest = older;
    }
    Ok(())
}

/// The page that a grant leaves when its records are undone.
pub(crate) fn undo_grant(grant: Grant) -> Result<Page, AllocError>
    requires { CanUndo grant.copy grant.chain }
    ensures { IfOk result (λ p. p ≡ undone grant.copy grant.chain) }
{
    let Grant { copy, chain } = grant;
    let mut page = copy;
    undo_each(&mut page, chain.as_slice())?;
    Ok(page)
}
