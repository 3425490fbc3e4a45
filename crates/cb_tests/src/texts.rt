//! The texts of faults, of every variant: number and name.

use cb_client::ClientFault;
use cb_office::TallyFault;
use cb_station::OfficeFault;
use cb_test_parts::printed::are_printed;
use cb_worker::WorkerFault;

static OF_OFFICES: [(OfficeFault, &str); 7] = [
    (OfficeFault::Foreign, "1 Foreign"),
    (OfficeFault::NotHeld, "2 NotHeld"),
    (OfficeFault::NotLive, "3 NotLive"),
    (OfficeFault::Joined, "4 Joined"),
    (OfficeFault::Old, "5 Old"),
    (OfficeFault::Exhausted, "6 Exhausted"),
    (OfficeFault::Memory, "7 Memory"),
];

static OF_WORKERS: [(WorkerFault, &str); 3] = [
    (WorkerFault::Client(ClientFault::Memory), "1 Client"),
    (WorkerFault::Office(OfficeFault::Foreign), "2 Office"),
    (WorkerFault::Halted, "3 Halted"),
];

static OF_TALLIES: [(TallyFault, &str); 2] = [
    (TallyFault::Double, "1 Double"),
    (TallyFault::Stranger, "2 Stranger"),
];

#[test]
fn texts_of_faults(rt: HostRuntime) {
    assert!(rt; are_printed(rt.alloc(), &OF_OFFICES));
    assert!(rt; are_printed(rt.alloc(), &OF_WORKERS));
    assert!(rt; are_printed(rt.alloc(), &OF_TALLIES));
}
