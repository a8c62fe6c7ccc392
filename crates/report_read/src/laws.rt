ghost use Rattle.std.specs.Prelude.{◌≡◌};
ghost use Rattle.report_text.specs.declared.reports.Report.{Report};
ghost use Rattle.report_text.specs.Text.{report_text};
ghost use Rattle.report_text.specs.Grammar.{IsReport};

/// A text is the text of at most one report.
pub fn report_texts_tell()
    ensures { (r s : Report) → IsReport r → IsReport s → report_text r ≡ report_text s → r ≡ s }
{}
