//! The file that a command opens as its store: which one, and how far it came.
ghost use Rattle.std.specs.Prelude.{◌≡◌, Some, None, codes, IfErr, IfOk, OnErr};
ghost use Rattle.cb_commit.specs.Stores.{IsOf};
ghost use Rattle.cb_play.specs.StoreFiles.{BeginsLife, OpensShelf};
ghost use Rattle.cb_shelf.specs.Newer.{HoldsNewer};
ghost use Rattle.cb_shelf.specs.Inside.{IsSame};
ghost use Rattle.sqlite.specs.Held.{state};
ghost use Rattle.sqlite.specs.State.{HasCleanDisk};

use cb_commit::Store;
use cb_office::PastRun;
use cb_page::Limits;
use cb_shelf::{Life, Shelf, ShelfFault};
use sqlite::{Alter, Connection, File, FileStore};
use std::alloc::Global;

/// How far a store's file came.
#[derive(Clone, Copy)]
pub(crate) enum Reach {
    /// It was opened as a database.
    Opened,
    /// Its tables are those of a store.
    LaidOut,
    /// A life of the server has begun over them.
    Begun,
    /// The store in them was read.
    Read,
    /// It was refused.
    Refused(ShelfFault),
}

/// Says which file was opened as the store, and how far it came: nobody but [`StoreFile::open`]
/// makes one, and nobody copies it.
#[derive(Drop)]
pub(crate) struct StoreFile<'a> {
    path: &'a str,
    reach: Reach,
}

/// How a command over a store ended: the program's status, the file that it opened, and that its
/// run was over. There is no file where it came to none, and no run where no jobs were counted.
#[derive(Drop)]
pub(crate) struct StoreEnd<'a> {
    pub(crate) status: u8,
    pub(crate) file: Option<StoreFile<'a>>,
    pub(crate) run: Option<PastRun>,
}

impl<'a> StoreEnd<'a> {
    /// It ended with this status, and came to no file.
    pub(crate) fn none(status: u8) -> StoreEnd<'a>
        ensures status { result.status ≡ status }
        ensures none { result.file ≡ None }
    {
        StoreEnd {
            status,
            file: None,
            run: None,
        }
    }

    /// It ended with this status, over this file, after this run, if its jobs were counted.
    pub(crate) fn over(status: u8, file: StoreFile<'a>, run: Option<PastRun>) -> StoreEnd<'a>
        ensures status { result.status ≡ status }
        ensures over { result.file ≡ Some file.entry }
        ensures run { result.run ≡ run }
    {
        let file = Some(file);
        StoreEnd { status, file, run }
    }
}

impl<'a> StoreFile<'a> {
    /// Opens the file of a path as a database; it is made if it isn't there.
    pub(crate) fn open(
        rt: &HostRuntime,
        path: &'a str,
    ) -> (
        StoreFile<'a>,
        Result<Connection<FileStore<File>>, ShelfFault>,
    )
        ensures path { result.0.path.now ≡ path.now }
        ensures opened { IfOk result.1 (λ _. result.0.reach ≡ Reach.Opened) }
        ensures refused { IfErr result.1 (λ fault. result.0.reach ≡ Reach.Refused fault) }
        ensures memory { path.now ≡ codes ":memory:"
            → result.0.reach ≡ Reach.Refused ShelfFault.Store }
    {
        match Connection::open(rt, path) {
            Ok(conn) => {
                let reach = Reach::Opened;
                (StoreFile { path, reach }, Ok(conn))
            }
            Err(error) => {
                let fault = ShelfFault::from(error);
                let reach = Reach::Refused(fault);
                (StoreFile { path, reach }, Err(fault))
            }
        }
    }

    /// Opens the tables of a store of these limits in its database. What is refused comes with the
    /// connection.
    pub(crate) fn lay_out<S: Alter>(
        &mut self,
        alloc: Global,
        conn: Connection<S>,
        limits: &Limits,
    ) -> Result<Shelf<S>, (ShelfFault, Connection<S>)>
        ensures path { self.new.path.now ≡ self.old.path.now }
        ensures laid_out { IfOk result (λ _. self.new.reach ≡ Reach.LaidOut) }
        ensures refused { IfErr result (λ refused. self.new.reach ≡ Reach.Refused refused.0) }
        ensures limits { IfOk result (λ shelf. shelf.limits ≡ limits.now) }
        ensures opens { IfOk result (λ shelf. OpensShelf S.Store limits.now conn shelf.conn) }
        ensures neither { IfErr result (λ refused. HasCleanDisk (state S.Store refused.1)
            → IsSame (state S.Store conn) (state S.Store refused.1)) }
    {
        match Shelf::open(alloc, conn, limits) {
            Ok(shelf) => {
                self.reach = Reach::LaidOut;
                Ok(shelf)
            }
            Err((fault, conn)) => {
                self.reach = Reach::Refused(fault);
                Err((fault, conn))
            }
        }
    }

    /// Begins the next life of the server over its tables.
    pub(crate) fn begin_life<S: Alter>(&mut self, shelf: &mut Shelf<S>) -> Result<Life, ShelfFault>
        ensures path { self.new.path.now ≡ self.old.path.now }
        ensures begun { IfOk result (λ _. self.new.reach ≡ Reach.Begun) }
        ensures refused { IfErr result (λ fault. self.new.reach ≡ Reach.Refused fault) }
        ensures limits { shelf.new.limits ≡ shelf.old.limits }
        ensures begins { IfOk result (λ life.
            BeginsLife S.Store life shelf.old.conn shelf.new.conn) }
        ensures neither { OnErr result (HasCleanDisk (state S.Store shelf.new.conn)
            → IsSame (state S.Store shelf.old.conn) (state S.Store shelf.new.conn)) }
    {
        match shelf.begin_life() {
            Ok(life) => {
                self.reach = Reach::Begun;
                Ok(life)
            }
            Err(refused) => {
                self.reach = Reach::Refused(refused);
                Err(refused)
            }
        }
    }

    /// Reads the store in its tables.
    pub(crate) fn read<S: Alter>(
        &mut self,
        alloc: Global,
        shelf: &mut Shelf<S>,
    ) -> Result<Store, ShelfFault>
        ensures path { self.new.path.now ≡ self.old.path.now }
        ensures read { IfOk result (λ _. self.new.reach ≡ Reach.Read) }
        ensures refused { IfErr result (λ fault. self.new.reach ≡ Reach.Refused fault) }
        ensures of { IfOk result (IsOf shelf.old.limits) }
        ensures limits { shelf.new.limits ≡ shelf.old.limits }
        ensures holds { HasCleanDisk (state S.Store shelf.new.conn)
            → IfOk result (HoldsNewer (state S.Store shelf.old.conn).now) }
        ensures same { HasCleanDisk (state S.Store shelf.new.conn)
            → IsSame (state S.Store shelf.old.conn) (state S.Store shelf.new.conn) }
    {
        match shelf.load(alloc) {
            Ok(store) => {
                self.reach = Reach::Read;
                Ok(store)
            }
            Err(fault) => {
                self.reach = Reach::Refused(fault);
                Err(fault)
            }
        }
    }
}
