//! Threads that share a station.
use crate::running::trials::{Trial, goes_well};
use crate::running::visits::{commit, first_page, says};
use cb_frame::{ShortBody, Writes};
use cb_hands::Hand;
use cb_page::{ClientNo, PageNo, PageSet, TxnNo};
use cb_station::{Office, Station};
use std::alloc::Global;
use std::sync::Wait;
use std::sync::atomic::{AtomicU64, Ordering};
use std::thread;
use std::thread::Threads;

/// How many transactions each client commits.
const COUNT: u64 = 200;

/// Whether a transaction reads page 0 and commits, with a lock for each.
fn reads_once<R: Wait>(
    rt: &R,
    alloc: Global,
    office: &Office,
    hand: &mut Hand,
    txn: TxnNo,
    pages: &PageSet,
) -> bool {
    let page = PageNo::new(0);
    let ask = ShortBody::AskRead { txn, page };
    let asked = says(alloc, &mut office.lock(rt), hand, ask);
    let nothing = Writes::from_vec(Vec::new(alloc));
    asked && commit(alloc, &mut office.lock(rt), hand, txn, pages, nothing)
}

/// Whether all its transactions are committed.
fn reads_often<R: Wait>(rt: &R, alloc: Global, office: &Office, hand: &mut Hand) -> bool {
    let Ok(pages) = first_page(alloc) else {
        return false;
    };
    for txn in 0..COUNT {
        if !reads_once(rt, alloc, office, hand, TxnNo::new(txn + 1), &pages) {
            return false;
        }
    }
    true
}

/// Whether a client joins and commits its transactions.
fn visits<R: Wait>(rt: &R, alloc: Global, office: &Office, number: u16) -> bool {
    let joined = office.lock(rt).join(alloc, ClientNo::new(number % 4));
    match joined {
        Ok(mut hand) => {
            let read = reads_often(rt, alloc, office, &mut hand);
            hand.abandon();
            read
        }
        Err(_) => false,
    }
}

/// How many visits of four at once went well.
fn four_visits<R: Wait + Threads + Sync>(rt: &R, alloc: Global, office: &Office) -> u64 {
    let counter = AtomicU64::new(0);
    let counted = &counter;
    thread::scope(thread::scope_env(), rt, |scope| {
        for number in 0..4u16 {
            let _started = scope.spawn(move || {
                let well = visits(rt, alloc, office, number);
                counted.fetch_add(u64::from(well), Ordering::SeqCst);
            });
        }
    });
    counter.load(Ordering::SeqCst)
}

/// Whether the client's transactions stand in the history, each once and in their order.
fn has_all(station: &Station, client: ClientNo) -> bool {
    let mut next = 1;
    for entry in station.history() {
        if entry.client == client {
            if entry.txn.get() != next || entry.reads.len() != 1 || next > COUNT {
                return false;
            }
            next += 1;
        }
    }
    next == COUNT + 1
}

/// Whether four visits at once go well, and each client's transactions stand in the history.
pub(crate) fn are_shared<R: Wait + Threads + Sync>(rt: &R, alloc: Global, office: &Office) -> bool {
    let mut well = four_visits(rt, alloc, office) == 4;
    for client in 0..4u16 {
        well = well && has_all(&office.lock(rt), ClientNo::new(client));
    }
    well
}

#[test]
fn four_clients_share_a_station(rt: HostRuntime) {
    assert!(rt; goes_well(Trial::Shared, &rt, rt.alloc()));
}
