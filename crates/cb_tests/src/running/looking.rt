//! Whole runs whose history is looked at before each write, so that no entry is forgotten before
//! that.
use crate::running::disks::{Faults, NONE, both};
use crate::running::gates::{Act, Counts, Plan};
use crate::running::run::Came;
use crate::running::trials::Trial;
use crate::running::work::{ShelfTask, WorkEnd, opening};
use cb_commit::Store;
use cb_page::Limits;
use cb_station::{Office, Station};
use std::alloc::Global;
use std::sync::Wait;
use std::thread::Threads;
use std::time::Clock;

/// An office, and where is counted what its history has.
#[derive(Clone, Copy)]
pub(crate) struct Looks<'a> {
    pub(crate) office: &'a Office,
    pub(crate) counts: &'a Counts,
}

/// An office over two pages of zeros, in which so many clients work.
fn new_office(alloc: Global, clients: u16) -> Option<Office> {
    let limits = Limits::new(u64::from(clients), 2, 16, 2, 1, 1).ok()?;
    let store = Store::zeros(alloc, &limits).ok()?;
    let station = Station::new(alloc, &limits, store).ok()?;
    Some(Office::new(station, usize::from(clients)))
}

/// Whether so many clients do so many jobs each over a new database, and every entry of the history
/// is looked at, and has pages 0 and 1 read and written.
fn counts_up<R: Threads + Wait + Clock + Sync>(
    rt: &R,
    alloc: Global,
    clients: u16,
    jobs: u32,
) -> bool {
    let Some(office) = new_office(alloc, clients) else {
        return false;
    };
    let counts = Counts::new(Plan {
        clients,
        jobs,
        steps: 0,
        act: Act::Looked,
    });
    let looks = Looks {
        office: &office,
        counts: &counts,
    };
    let faults = Faults {
        looks: Some(looks),
        ..NONE
    };
    let works = [
        opening(ShelfTask::Try(Trial::LookedAt(looks))),
        opening(ShelfTask::Begin(&counts)),
    ];
    let all = u64::from(clients) * u64::from(jobs);
    let ((ran, _), (seen, _)) = both(rt, alloc, clients, faults, works);
    ran == WorkEnd::Ran(Came::Done(all)) && seen == WorkEnd::Well(true)
}

/// The stored run of `cb_play` does the same over a file.
#[test]
fn counters(rt: HostRuntime) {
    assert!(rt; counts_up(&rt, rt.alloc(), 4, 40));
    assert!(rt; counts_up(&rt, rt.alloc(), 1, 0));
}
