ghost use Rattle.frame_code.specs.Spelled.{IsSpelled};
ghost use Rattle.frame_code.specs.declared.frames.Frame.TheVariants as frame;
ghost use Rattle.phys_log.specs.declared.entries.Entry.{Entry};
ghost use Rattle.entry_spelling.specs.Fields.{HasFields, IsGrown};

/// The law that an entry whose parts fit their fields has a spelling, where the tables of a setup can be added one after
/// the other.
#[tactic(auto, using(crate::proofs::EntryLaws::fields_spell))]
pub fn entries_that_fit_have_a_spelling()
    ensures { (entry : Entry) → HasFields entry → IsGrown entry → IsSpelled (frame.Entry entry) }
{}
