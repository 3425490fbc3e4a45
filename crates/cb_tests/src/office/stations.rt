//! Stations for tests.
use cb_commit::Store;
use cb_hands::Hand;
use cb_page::{ClientNo, Limits};
use cb_station::Station;
use std::alloc::Global;

/// A station over zeros, of three clients and four pages of 16 bytes.
pub(crate) fn over_zeros(alloc: Global) -> Option<Station> {
    zeros_of(alloc, 3, 4)
}

/// A station over zeros at the greatest limits: 32 clients and 4,096 pages, of 16 bytes.
pub(crate) fn greatest(alloc: Global) -> Option<Station> {
    zeros_of(alloc, 32, 4096)
}

fn zeros_of(alloc: Global, clients: u64, pages: u64) -> Option<Station> {
    let Ok(limits) = Limits::new(clients, pages, 16, 4, 1, 2) else {
        return None;
    };
    let store = Store::zeros(alloc, &limits).ok()?;
    Station::new(alloc, &limits, store).ok()
}

/// The hands of the first two clients, who join.
pub(crate) fn two_join(alloc: Global, station: &mut Station) -> Option<(Hand, Hand)> {
    let one = station.join(alloc, ClientNo::new(0)).ok()?;
    match station.join(alloc, ClientNo::new(1)) {
        Ok(two) => Some((one, two)),
        Err(_) => {
            one.abandon();
            None
        }
    }
}
