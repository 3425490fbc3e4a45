//! Laws of a shelf's file: what the statements of a batch make of the rows of its tables, and what
//! a load returns, whatever its servers went through.
//!
//! The crate has no code: each function carries one law in its contract, over the definitions of
//! `cb_shelf`. The laws are about a database with the four tables `mark2`, `page2`, `part` and
//! `life`, as an open makes them, alone or behind the two tables of an older generation. Their rows
//! have whole numbers as rowids, which rise (`IsShelf`). Each statement keeps this. Some laws are
//! about tables without `life` (`IsUnlived`).
//!
//! A table is stated as a map from its key to its rows: `page_rows` and `part_rows`.
//! `cb_shelf::Shelf::write` says that the statements of its batch ran (`MakesAll`), and
//! [`batches_are_held`] what the tables hold then.
//!
//! [`loads_follow_commits`] and [`floors_are_new`] put together what `cb_shelf` says of each call
//! and what the laws of rows say, over any list of commits, flushes, refused writes, opens, lives
//! and stops of the server. They say what a load of the tables answers, that no commit is lost
//! whose Done was sent, and that no floor of a life comes twice.
#![tactic(auto)]

ghost use Rattle.cb_shelf_laws.specs.Laws.{StoresAreLaid, VersionsArePut, PartsArePut};
ghost use Rattle.cb_shelf_laws.specs.Laws.{VersionsAreSet, PartsAreSet, NumbersAreSet};
ghost use Rattle.cb_shelf_laws.specs.Laws.{BatchesAreWritten, BatchesAreHeld, TablesAreMade};
ghost use Rattle.cb_shelf_laws.specs.Laws.{AnswersAreTheRows, FirstLoadsAreZeros};
ghost use Rattle.cb_shelf_laws.specs.Laws.{LoadsFollowBatches, OlderTablesAreMade};
ghost use Rattle.cb_shelf_laws.specs.Laws.{LoadsFollowCopies, LoadsFollowFinds};
ghost use Rattle.cb_shelf_laws.specs.LifeLaws.{BatchesKeepLives, LivesAreLaid, LivesArePut};
ghost use Rattle.cb_shelf_laws.specs.LifeLaws.{LivesBegin, LivesFollow, LivesKeepStores};
ghost use Rattle.cb_shelf_laws.specs.LifeLaws.{UnlivedKeepStores, UnlivedLivesBegin};
ghost use Rattle.cb_shelf_laws.specs.LifeLaws.{UnlivedLivesFollow};
ghost use Rattle.cb_shelf_laws.specs.Stops.{FloorsAreNew, LoadsFollowCommits};

use sqlite::Alter;

/// If there is no table, the statements of an older generation make its two tables.
pub fn older_tables_are_made<S: Alter>()
    ensures law { OlderTablesAreMade S.Store }
{}

/// If there is no table, or only the two of an older generation, the statements that create the
/// tables make a shelf's, with no row.
pub fn tables_are_made<S: Alter>()
    ensures law { TablesAreMade S.Store }
{}

/// If there is no table, the statements of an open that finds none make tables whose rows are those
/// of the store. So do those of an open that copies the store of older tables, if there are only
/// these.
pub fn stores_are_laid<S: Alter>()
    ensures law { StoresAreLaid S.Store }
{}

/// The statement that puts a page's version in replaces the rows that the page had by one row with
/// that version. Each other page keeps its rows, and so do the other tables.
pub fn versions_are_put<S: Alter>()
    ensures law { VersionsArePut S.Store }
{}

/// The statement that puts a part in replaces the rows that the page had at that place by one row
/// with the part's bytes. Each other part keeps its rows, and so do the other tables.
pub fn parts_are_put<S: Alter>()
    ensures law { PartsArePut S.Store }
{}

/// If a page has a row, the statement that sets its version sets it there. Each other page keeps
/// its rows, and so do the other tables.
pub fn versions_are_set<S: Alter>()
    ensures law { VersionsAreSet S.Store }
{}

/// If a page has a row at a place, the statement that sets the part sets its bytes there. Each
/// other part keeps its rows, and so do the other tables.
pub fn parts_are_set<S: Alter>()
    ensures law { PartsAreSet S.Store }
{}

/// The statement of the number sets it in the row of the mark, and nothing else.
pub fn numbers_are_set<S: Alter>()
    ensures law { NumbersAreSet S.Store }
{}

/// If the rows are those of a store, the statements of a batch that fits make them those of that
/// store with the batch written over it. `page2` and `part` have as many rows as before.
pub fn batches_are_written<S: Alter>()
    ensures law { BatchesAreWritten S.Store }
{}

/// Suppose that the tables hold a store, by what they answer to the questions of a load. Once the
/// statements of a batch that fits have run, they hold that store with the batch written over it.
pub fn batches_are_held<S: Alter>()
    ensures law { BatchesAreHeld S.Store }
{}

/// If tables have the rows of a store, they answer that store and no other. The premise is that
/// each page of both stores has its store's size, as in every `Store`.
pub fn answers_are_the_rows()
    ensures law { AnswersAreTheRows }
{}

/// What the tables answer after an open over a database with no table is the store of zeros.
pub fn first_loads_are_zeros<S: Alter>()
    ensures law { FirstLoadsAreZeros S.Store }
{}

/// What the tables answer after an open over a database with no table, and then batches that fit,
/// is the store of zeros with these batches written over it in their order. Later opens of the same
/// limits, and rows of lives, before, between or after the batches, change nothing.
pub fn loads_follow_batches<S: Alter>()
    ensures law { LoadsFollowBatches S.Store }
{}

/// The same after an open that copied a store of older tables, and then batches that fit, opens of
/// the same limits and rows of lives, in any order: the tables answer that store with the batches
/// written over it in their order. The premises are that the older tables were the only ones, as
/// their statements make them, and that each page of the store has its size.
pub fn loads_follow_copies<S: Alter>()
    ensures law { LoadsFollowCopies S.Store }
{}

/// The same for tables that were found with a store, by what they answer, whether older tables
/// stand beside them or not. It is a premise that their schema and their rowids are as `IsShelf`
/// says: no call tells that of a file.
pub fn loads_follow_finds<S: Alter>()
    ensures law { LoadsFollowFinds S.Store }
{}

/// The statements with which a life begins, and the one that gives it room, put its row and leave
/// all other tables as they are, even if the tables are those of a server that kept no such row.
/// The tables therefore hold the same store. A batch leaves the row as it is. Tables that an open
/// makes have the row from the start.
pub fn lives_are_put<S: Alter>()
    ensures put { LivesArePut S.Store }
    ensures begin { LivesBegin S.Store }
    ensures unlived { UnlivedLivesBegin S.Store }
    ensures kept { BatchesKeepLives S.Store }
    ensures stores { LivesKeepStores S.Store }
    ensures unlived_stores { UnlivedKeepStores S.Store }
    ensures laid { LivesAreLaid S.Store }
{}

/// The floor of the life that begins next is the number in the last row, which is above each
/// incarnation that the last life's server knew. If no server kept a row, the floor is 2^61.
pub fn lives_follow()
    ensures follow { LivesFollow }
    ensures unlived { UnlivedLivesFollow }
{}

/// From the first open of a file on, the tables answer the opening store with the first commits
/// that count written over it: at least those that the present server reported, and at most all.
/// This holds whatever is committed, written, refused, reported, opened again, begun as a life,
/// given room and stopped. Each Done that was sent, by whichever server, is of one of these
/// commits, and its number isn't above the store's.
///
/// The opening store is what the first open left: zeros, if there was no table; the store that it
/// copied, if there were older tables and no others; or the one that a shelf's tables had, with a
/// table of lives or without. No call hands out two of the premises: that the pages of a copied or
/// found store are full, and that the schema and the rowids of found tables are as `IsShelf` says.
///
/// If `cb_shelf::Shelf::write` succeeds, that is a write here; if it is refused, nothing changes
/// (its clauses `both` and `neither`). A stop within it leaves the batch in the file or not (its
/// clause `crash`), and so does a report that is refused after it. An open is
/// `cb_shelf::Shelf::open` over what it finds. A life begins by `begin_life` and gets room by
/// `raise`; a stop within these leaves the old row or the new one. Further premises are that the
/// disk is clean, and that nobody else writes the file.
pub fn loads_follow_commits<S: Alter>()
    ensures law { LoadsFollowCommits S.Store }
{}

/// From the first open of a file on, whatever happens to it, the floors of the lives that begin
/// over it rise: none is handed out twice. Each is below the number that the tables tell, and so is
/// each incarnation for which a life was given room. The next life begins at that number. What the
/// first open found, and the premises, are as in [`loads_follow_commits`]. For tables without lives
/// it speaks of the lives from the first one on that is kept.
pub fn floors_are_new<S: Alter>()
    ensures law { FloorsAreNew S.Store }
{}
