ghost use Rattle.std.specs.Prelude.{◌≡◌, length, IfOk, IfSome, IfNone, Some};
ghost use Rattle.report_text.specs.declared.reports.Report.{Report};
ghost use Rattle.report_text.specs.Text.{report_text};
ghost use Rattle.report_text.specs.Grammar.{IsReport};
ghost use Rattle.byte_words.specs.Answers.{Gives};
ghost use Rattle.report_read.specs.Reading.{drafted, empty_draft, report_of};

use super::drafts::Draft;
use super::items::read_item;
use report_text::Report;
use std::alloc::{AllocError, Global};

/// What the lines say together; `None` where one of them is no line of a report, or stands behind a
/// later part. The error is want of memory.
fn read_draft(alloc: Global, bytes: &[u8]) -> Result<Option<Draft>, AllocError>
    ensures { Gives (λ d. d) result (drafted (length bytes.now) empty_draft bytes.now) }
{
    let mut draft = Draft::new(alloc);
    let mut rest = bytes;
    'items: for _ in 0..bytes.len() {
        if rest.is_empty() {
            return Ok(Some(draft));
        }
        let Some((item, after)) = read_item(alloc, rest)? else {
            return Ok(None);
        };
        let Some(next) = draft.add(item)? else {
            return Ok(None);
        };
        draft = next;
        rest = after;
    }
    if rest.is_empty() {
        Ok(Some(draft))
    } else {
        Ok(None)
    }
}

/// The report whose text the bytes are, as the definition reads it.
#[tactic(auto, unfolding(crate::specs::Reading::report_of))]
fn report_from(alloc: Global, bytes: &[u8]) -> Result<Option<Report>, AllocError>
    ensures { Gives (λ r. r) result (report_of bytes.now) }
{
    let Some(draft) = read_draft(alloc, bytes)? else {
        return Ok(None);
    };
    Ok(draft.finish())
}

/// The report whose text the bytes are; `None` exactly where they are the text of no report. The error
/// is want of memory. Time and memory are in proportion to the bytes.
pub fn read_report(alloc: Global, bytes: &[u8]) -> Result<Option<Report>, AllocError>
    // What is read is a report, and the bytes are its text.
    ensures found { IfOk result (λ o. IfSome o (λ r. IsReport r × (report_text r ≡ bytes.now))) }
    // The text of a report is read as that report.
    ensures only { IfOk result (λ o. (r : Report) → IsReport r → report_text r ≡ bytes.now → o ≡ Some r) }
    // Nothing is read only where the bytes are the text of no report.
    ensures none { IfOk result (λ o. IfNone o ((r : Report) → IsReport r → report_text r ≡ bytes.now → ⊥)) }
{
    report_from(alloc, bytes)
}
