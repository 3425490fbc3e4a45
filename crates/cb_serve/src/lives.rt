//! The life of the server that a service has.
ghost use Rattle.std.specs.Prelude.{◌≡◌, IfErr, OnOk};
ghost use Rattle.sqlite.specs.Held.{state};
ghost use Rattle.sqlite.specs.State.{Survives};
ghost use Rattle.cb_server.specs.Knowing.{KnowsBelow};
ghost use Rattle.cb_server.specs.ServerValue.{server_of};
ghost use Rattle.cb_shelf.specs.Living.{life_end};
ghost use Rattle.cb_serve.specs.Living.{KeepsRoom, MayMakeRoom, RefusesRoom};

use crate::fault::RoundFault;
use cb_server::Server;
use cb_shelf::{Life, Shelf};
use sqlite::Alter;

/// Gives a life room for all incarnations that its server knows. It comes before any answer goes
/// out, so that whoever was welcomed is below the number that the tables tell.
pub(crate) fn keep_room<S: Alter>(
    server: &Server,
    shelf: &mut Shelf<S>,
    life: &mut Life,
) -> Result<(), RoundFault>
    requires { KnowsBelow (server_of server.now) (life_end life.old) }
    ensures ok { OnOk result (KeepsRoom S.Store (server_of server.now) life.old life.new
        shelf.old.conn shelf.new.conn) }
    ensures err { IfErr result (λ fault. RefusesRoom S.Store fault shelf.old.conn
        shelf.new.conn) }
    ensures crash { Survives (state S.Store shelf.old.conn) (state S.Store shelf.new.conn)
        (MayMakeRoom S.Store life.old shelf.old.conn) }
    ensures limits { shelf.new.limits ≡ shelf.old.limits }
{
    // The number is above the floor.
    let _known = life.floor();
    let Some(greatest) = server.greatest_known() else {
        return Ok(());
    };
    if life.has_room_for(greatest) {
        return Ok(());
    }
    match shelf.raise(life, greatest) {
        Ok(()) => Ok(()),
        Err(fault) => Err(RoundFault::from(fault)),
    }
}
