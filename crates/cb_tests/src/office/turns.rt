//! Who is told as a client's tries end, and its next ones begin.
use crate::office::stations::over_zeros;
use cb_admission::TryEnd;
use cb_page::ClientNo;
use cb_station::{Station, Ticket};

/// So often in a row a client is let in while others wait.
const TURNS: u64 = 16;

/// Client 0, which goes on.
fn first() -> ClientNo {
    ClientNo::new(0)
}

/// Client 1, which waits.
fn other() -> ClientNo {
    ClientNo::new(1)
}

/// Narrows the window by so many aborted tries of client 0, and takes a ticket for its next one.
fn narrowed(station: &mut Station, aborted: u64) -> Option<Ticket> {
    let mut ticket = station.admit(first())?;
    for _try in 0..aborted {
        ticket = station.try_again(ticket.ended(TryEnd::Aborted), first())?;
    }
    Some(ticket)
}

/// Whether a try of the client's isn't let in, so that it waits. One that is ends at once.
fn is_kept_out(station: &mut Station, client: ClientNo) -> bool {
    match station.admit(client) {
        Some(ticket) => {
            station.end_try(ticket.ended(TryEnd::GivenUp));
            false
        }
        None => true,
    }
}

/// Whether this client is to be told, and nobody else.
fn tells_alone(station: &Station, client: ClientNo) -> bool {
    let told = station.untold();
    told.first() == Some(client) && told.next(client.index() + 1).is_none()
}

/// Whether nobody is to be told.
fn tells_nobody(station: &Station) -> bool {
    station.untold().first().is_none()
}

/// How often in a row a try of client 0 ends and its next one is let in, with nobody told.
fn count_turns(station: &mut Station, held: Ticket) -> u64 {
    let mut ticket = held;
    let mut turns = 0;
    for _try in 0..2 * TURNS {
        match station.try_again(ticket.ended(TryEnd::Committed), first()) {
            Some(again) => ticket = again,
            None => return turns,
        }
        turns = u64::from(tells_nobody(station)).saturating_add(turns);
    }
    station.end_try(ticket.ended(TryEnd::GivenUp));
    turns
}

/// Whether a client goes on sixteen times while another waits; then that one is told, and let in.
fn takes_turns(station: &mut Station) -> bool {
    let Some(ticket) = narrowed(station, 5) else {
        return false;
    };
    let waits = is_kept_out(station, other());
    let turns = count_turns(station, ticket);
    let told = tells_alone(station, other()) && station.window().inside() == 0;
    waits && turns == TURNS && told && !is_kept_out(station, other())
}

/// Whether a client whose try was aborted waits while the other one is in, with nobody told; it is
/// told once that one's try ends.
fn waits_for_the_other(station: &mut Station) -> bool {
    let Some(ticket) = narrowed(station, 4) else {
        return false;
    };
    let Some(beside) = station.admit(other()) else {
        station.end_try(ticket.ended(TryEnd::GivenUp));
        return false;
    };
    let waits = match station.try_again(ticket.ended(TryEnd::Aborted), first()) {
        Some(again) => {
            station.end_try(again.ended(TryEnd::GivenUp));
            false
        }
        None => tells_nobody(station),
    };
    station.end_try(beside.ended(TryEnd::Committed));
    waits && tells_alone(station, first()) && station.window().width() == 1
}

#[test]
fn goes_on_sixteen_times(rt: HostRuntime) {
    let well = match over_zeros(rt.alloc()) {
        Some(mut station) => takes_turns(&mut station),
        None => false,
    };
    assert!(rt; well);
}

#[test]
fn aborted_beside_another(rt: HostRuntime) {
    let well = match over_zeros(rt.alloc()) {
        Some(mut station) => waits_for_the_other(&mut station),
        None => false,
    };
    assert!(rt; well);
}
