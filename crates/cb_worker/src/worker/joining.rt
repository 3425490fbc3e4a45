//! A client joins the office, or begins another incarnation, each under the lock. Who is to be told
//! of it is told there.
ghost use Rattle.cb_worker.specs.Entering.{JoinsAndTells, JoinsSome, JoinsWith, RestartsAndTells};
ghost use Rattle.cb_worker.specs.Entering.{RestartsSome, TriesToLeave};

use crate::worker::leaving::leave;
use cb_hands::Hand;
use cb_page::{ClientNo, Incarnation, Limits};
use cb_station::{Office, OfficeFault, Station};
use std::alloc::Global;
use std::sync::Wait;

/// The client joins the office, whose limits these are to be; its hand comes back.
pub(super) fn join<R: Wait>(
    rt: &R,
    alloc: Global,
    office: &Office,
    limits: &Limits,
    client: ClientNo,
) -> Result<Hand, OfficeFault>
    ensures { JoinsSome limits.now client result }
{
    join_with(alloc, office, &mut office.lock(rt), limits, client)
}

/// It joins where these are the station's limits, and is `Foreign` where they aren't.
fn join_with(
    alloc: Global,
    office: &Office,
    station: &mut Station,
    limits: &Limits,
    client: ClientNo,
) -> Result<Hand, OfficeFault>
    ensures { JoinsWith station.old limits.now client result station.new }
{
    if station.limits() != limits {
        return Err(OfficeFault::Foreign);
    }
    join_at(alloc, office, station, client)
}

fn join_at(
    alloc: Global,
    office: &Office,
    station: &mut Station,
    client: ClientNo,
) -> Result<Hand, OfficeFault>
    ensures { JoinsAndTells station.old client result station.new }
{
    let joined = station.join(alloc, client);
    office.tell(station);
    joined
}

/// The client with that hand begins another incarnation; its next hand comes back.
pub(super) fn restart<R: Wait>(
    rt: &R,
    alloc: Global,
    office: &Office,
    hand: Hand,
    incarnation: Incarnation,
) -> Result<Hand, (OfficeFault, Hand)>
    ensures { RestartsSome hand incarnation result }
{
    restart_at(alloc, office, &mut office.lock(rt), hand, incarnation)
}

fn restart_at(
    alloc: Global,
    office: &Office,
    station: &mut Station,
    hand: Hand,
    incarnation: Incarnation,
) -> Result<Hand, (OfficeFault, Hand)>
    ensures { RestartsAndTells station.old hand incarnation result station.new }
{
    let restarted = station.restart(alloc, hand, incarnation);
    office.tell(station);
    restarted
}

/// Takes back that the client joined; its hand is spent, also where it can't leave.
pub(super) fn unjoin<R: Wait>(rt: &R, alloc: Global, office: &Office, hand: Hand)
    ensures { TriesToLeave hand }
{
    if let Err((_, hand)) = leave(rt, alloc, office, hand) {
        hand.abandon();
    }
}
