//! The definitions speak of something: a store that is written out in `specs/Worked.antt`.
ghost use Rattle.table_store.specs.Stored.{Stands};
ghost use Rattle.table_store.specs.Worked.{worked_pages, worked_tables, worked_rows};

/// The written pages stand for the state of two rows.
pub fn two_rows_stand()
    ensures { Stands worked_pages worked_tables worked_rows }
{}
