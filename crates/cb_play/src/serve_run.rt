//! A server of frames over a store in a file.
ghost use Rattle.std.specs.Prelude.{◌≡◌, IfErr, IfOk, OnOk};
ghost use Rattle.cb_commit.specs.Stores.{IsOf};
ghost use Rattle.cb_serve.specs.Announcing.{StaysUnannounced};
ghost use Rattle.cb_serve.specs.Serving.{HoldsStore};
ghost use Rattle.cb_play.specs.Endings.{IsAnswered};
ghost use Rattle.cb_play.specs.Services.{IsService, ServesDatabase, ServesLife, ServesTables};
ghost use Rattle.cb_play.specs.Services.{TellsLife, TellsReached};

use crate::store_file::{StoreEnd, StoreFile};
use cb_commit::Store;
use cb_console::{Config, RunFault, print_refusal, read_config};
use cb_page::Limits;
use cb_serve::{RoundFault, Served, announce, print_served, serve};
use cb_shelf::{Life, Shelf};
use sqlite::{Alter, Connection};
use std::alloc::Global;
use std::io;
use std::io::{Read, Write};

/// Serves the frames of `input` under a configuration's text, over the store in a file, which is
/// made if it isn't there; what is said goes to `out`, behind the life's announcement, if it
/// `announces`. Why it ended before the input did is said on `err`; the answer has the program's
/// status, and which file was opened.
///
/// The file isn't opened before the configuration was checked. That the store is closed at the end
/// is said by no clause: what was committed is on disk before that, beside the file if not in it.
pub(crate) fn serve_store<'a, I: Read, O: Write, E: Write>(
    rt: &HostRuntime,
    config: &[u8],
    store: &'a str,
    announces: bool,
    input: &mut I,
    out: &mut O,
    err: &mut E,
) -> io::Result<StoreEnd<'a>>
    ensures status { IfOk result (λ ended. IsAnswered ended.status) }
    ensures service { IfOk result (λ ended. IsService config.now store.now ended
        (I.remaining input.old) (I.remaining input.new)
        (O.contents out.old) (O.contents out.new) (E.contents err.old) (E.contents err.new)) }
{
    match read_config(rt.alloc(), config) {
        Ok(config) => {
            let (file, served) = serve_file(rt, &config, store, announces, input, out);
            let status = print_served(served, err)?;
            Ok(StoreEnd::over(status, file, None))
        }
        Err(fault) => {
            let status = print_refusal(&RunFault::from(fault), err)?;
            Ok(StoreEnd::none(status))
        }
    }
}

/// Opens the file, serves, and closes it.
fn serve_file<'a, I: Read, O: Write>(
    rt: &HostRuntime,
    config: &Config,
    store: &'a str,
    announces: bool,
    input: &mut I,
    out: &mut O,
) -> (StoreFile<'a>, Served)
    ensures path { result.0.path.now ≡ store.now }
    ensures tells { TellsReached result.0.reach result.1 }
{
    let (mut file, opened) = StoreFile::open(rt, store);
    let conn = match opened {
        Ok(conn) => conn,
        Err(fault) => return (file, Served::refused(RoundFault::from(fault))),
    };
    let (served, conn) = serve_over(rt.alloc(), config, conn, &mut file, announces, input, out);
    // What is still in the log beside the file, the next open finds.
    let _ = conn.close();
    (file, served)
}

/// Serves over the store in a database, and gives the connection back.
fn serve_over<S: Alter, I: Read, O: Write>(
    alloc: Global,
    config: &Config,
    conn: Connection<S>,
    file: &mut StoreFile<'_>,
    announces: bool,
    input: &mut I,
    out: &mut O,
) -> (Served, Connection<S>)
    ensures path { file.new.path.now ≡ file.old.path.now }
    ensures tells { TellsReached file.new.reach result.0 }
    ensures serves { ServesDatabase S.Store config.now.limits announces file.new.reach
        result.0 conn result.1
        (I.remaining input.old) (I.remaining input.new)
        (O.contents out.old) (O.contents out.new) }
{
    match file.lay_out(alloc, conn, &config.limits) {
        Ok(mut shelf) => {
            let served = serve_in(alloc, config, &mut shelf, file, announces, input, out);
            (served, shelf.close())
        }
        Err((fault, conn)) => (Served::refused(RoundFault::from(fault)), conn),
    }
}

/// Serves over the store in a shelf.
fn serve_in<S: Alter, I: Read, O: Write>(
    alloc: Global,
    config: &Config,
    shelf: &mut Shelf<S>,
    file: &mut StoreFile<'_>,
    announces: bool,
    input: &mut I,
    out: &mut O,
) -> Served
    requires { shelf.old.limits ≡ config.now.limits }
    ensures path { file.new.path.now ≡ file.old.path.now }
    ensures tells { TellsReached file.new.reach result }
    ensures serves { ServesTables S.Store config.now.limits announces file.new.reach
        result shelf.old.conn shelf.new.conn
        (I.remaining input.old) (I.remaining input.new)
        (O.contents out.old) (O.contents out.new) }
{
    let life = match file.begin_life(shelf) {
        Ok(life) => life,
        Err(fault) => return Served::refused(RoundFault::from(fault)),
    };
    match file.read(alloc, shelf) {
        Ok(store) => {
            let limits = &config.limits;
            serve_life(alloc, limits, store, life, shelf, announces, input, out)
        }
        Err(fault) => Served::refused(RoundFault::from(fault)),
    }
}

/// Tells the life, if it is to be, and serves over the store in it.
fn serve_life<S: Alter, I: Read, O: Write>(
    alloc: Global,
    limits: &Limits,
    store: Store,
    life: Life,
    shelf: &mut Shelf<S>,
    announces: bool,
    input: &mut I,
    out: &mut O,
) -> Served
    requires shelf { shelf.old.limits ≡ limits.now }
    requires store { IsOf limits.now store }
    requires holds { HoldsStore S.Store store shelf.old.conn }
    ensures { ServesLife S.Store limits.now announces store life result
        shelf.old.conn shelf.new.conn
        (I.remaining input.old) (I.remaining input.new)
        (O.contents out.old) (O.contents out.new) }
{
    match tell_life(alloc, announces, &life, out) {
        Ok(()) => serve(alloc, limits, store, life, shelf, input, out),
        Err(fault) => Served::refused(fault),
    }
}

/// Tells the life, if it is to be.
fn tell_life<O: Write>(
    alloc: Global,
    announces: bool,
    life: &Life,
    out: &mut O,
) -> Result<(), RoundFault>
    ensures ok { OnOk result (TellsLife announces life.now.floor
        (O.contents out.old) (O.contents out.new)) }
    ensures err { IfErr result (λ fault. StaysUnannounced fault life.now.floor
        (O.contents out.old) (O.contents out.new)) }
{
    if announces {
        announce(alloc, life, out)
    } else {
        Ok(())
    }
}
