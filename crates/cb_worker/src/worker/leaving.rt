//! A client leaves the office under the lock, and a value says which office that was. Who is to be
//! told of it is told there.
ghost use Rattle.std.specs.Prelude.{◌≡◌, Err, IfErr, IfOk, Ok, OnOk};
ghost use Rattle.cb_station.specs.Locking.{lent_station};
ghost use Rattle.cb_station.specs.Stations.{IsStation};
ghost use Rattle.cb_worker.specs.Entering.{LeavesAndTells, LeavesSome};

use cb_hands::Hand;
use cb_page::ClientNo;
use cb_station::{LockedStation, Office, OfficeFault, Station};
use std::alloc::Global;
use std::marker::Model;
use std::sync::Wait;

/// Says that a client left an office. It is made under the lock alone (`leave_under`), and nobody
/// can copy it. In contracts it is the office's address, which is fixed as long as the value
/// exists, and the client's number.
#[derive(Drop)]
pub struct Left<'a> {
    office: &'a Office,
    client: ClientNo,
}

impl<'a> Model for Left<'a> {
    ghost use Rattle.cb_worker.specs.Leaving.{LeftState};

    ghost Value = { LeftState };

    ghost view = { λ left. record { office = left.office.ref_ptr; client = left.client } };
}

impl Left<'_> {
    /// Which client it was.
    pub fn client(&self) -> ClientNo
        ensures { result ≡ self.now.client }
    {
        self.client
    }
}

/// The client with that hand leaves the office.
pub(super) fn leave<'a, R: Wait>(
    rt: &R,
    alloc: Global,
    office: &'a Office,
    hand: Hand,
) -> Result<Left<'a>, (OfficeFault, Hand)>
    ensures office { IfOk result (λ left. left.office ≡ office.entry.ref_ptr) }
    ensures client { IfOk result (λ left. left.client ≡ hand.client) }
    ensures left { OnOk result (LeavesSome hand (Ok tt)) }
    ensures refused { IfErr result (λ refused. LeavesSome hand (Err refused)) }
{
    leave_under(alloc, office, &mut office.lock(rt), hand)
}

/// The same at the locked station. The lock lives as long as the value may, so it is none of an
/// office that the caller made.
fn leave_under<'a>(
    alloc: Global,
    office: &'a Office,
    locked: &mut LockedStation<'a>,
    hand: Hand,
) -> Result<Left<'a>, (OfficeFault, Hand)>
    requires sound { IsStation (lent_station locked.old) }
    ensures office { IfOk result (λ left. left.office ≡ office.entry.ref_ptr) }
    ensures client { IfOk result (λ left. left.client ≡ hand.client) }
    ensures left { OnOk result (LeavesSome hand (Ok tt)) }
    ensures refused { IfErr result (λ refused. LeavesSome hand (Err refused)) }
{
    let client = hand.client();
    match leave_at(alloc, office, locked, hand) {
        Ok(()) => Ok(Left { office, client }),
        Err(refused) => Err(refused),
    }
}

/// The same at the lent station; all who are to be told are told.
fn leave_at(
    alloc: Global,
    office: &Office,
    station: &mut Station,
    hand: Hand,
) -> Result<(), (OfficeFault, Hand)>
    ensures { LeavesAndTells station.old hand result station.new }
{
    let left = station.leave(alloc, hand);
    office.tell(station);
    left
}
