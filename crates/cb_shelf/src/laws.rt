//! Commits and flushes in any order, as a law over what each makes of the commits, of the batch
//! that is held and of the tables.
ghost use Rattle.cb_shelf.specs.Events.{TablesFollow};

/// The tables have the store after some of the commits, at least those that were reported. This
/// holds whatever is committed, at whichever step of a flush, and however often a batch is written
/// before it is reported.
///
/// [`flush_once`] says which steps each of its calls is, all in one. A running program takes
/// the batch, writes it and reports it while others commit. Each of these is a step of its own
/// there; the last two are those of [`write_and_report`], which both use. The premise is
/// that the statements of a batch write it over the store in the tables. `cb_shelf_laws` proves
/// that of a shelf's own tables.
pub fn tables_follow_commits()
    ensures law { TablesFollow }
{}
