//! The texts of faults, of every variant: number and name, or the rest of the line that is printed.

use cb_client::ClientFault;
use cb_console::{ConfigFault, Key, ReadFault, RunFault};
use cb_frame::{BytesFault, FrameFault};
use cb_page::LimitFault;
use cb_pool::PoolFault;
use cb_server::ServerFault;
use cb_test_parts::printed::are_printed;
use cb_transcript::{Refusal, ScheduleFault};
use cb_twoq::ChooseFault;
use std::alloc::Global;

static OF_LIMITS: [(LimitFault, &str); 6] = [
    (LimitFault::Clients, "1 Clients"),
    (LimitFault::Pages, "2 Pages"),
    (LimitFault::PageSize, "3 PageSize"),
    (LimitFault::Slots, "4 Slots"),
    (LimitFault::Kin, "5 Kin"),
    (LimitFault::Kout, "6 Kout"),
];

static OF_FRAMES: [(FrameFault, &str); 7] = [
    (FrameFault::Short, "1 Short"),
    (FrameFault::Version, "2 Version"),
    (FrameFault::Kind, "3 Kind"),
    (FrameFault::Length, "4 Length"),
    (FrameFault::Range, "5 Range"),
    (FrameFault::Order, "6 Order"),
    (FrameFault::Memory, "7 Memory"),
];

static OF_BYTES: [(BytesFault<FrameFault>, &str); 2] = [
    (BytesFault::Frame(FrameFault::Order), "1 Frame: 6 Order"),
    (BytesFault::Taker(FrameFault::Memory), "2 Taker: 7 Memory"),
];

static OF_CHOOSERS: [(ChooseFault, &str); 2] = [
    (ChooseFault::Full, "1 Full"),
    (ChooseFault::Memory, "2 Memory"),
];

static OF_POOLS: [(PoolFault, &str); 2] = [
    (PoolFault::Full, "1 Full"),
    (PoolFault::Memory, "2 Memory"),
];

static OF_CLIENTS: [(ClientFault, &str); 13] = [
    (ClientFault::NotWelcome, "1 NotWelcome"),
    (ClientFault::NoTransaction, "2 NoTransaction"),
    (ClientFault::TransactionOpen, "3 TransactionOpen"),
    (ClientFault::Committing, "4 Committing"),
    (ClientFault::Waiting, "5 Waiting"),
    (ClientFault::PageRange, "6 PageRange"),
    (ClientFault::NotRead, "7 NotRead"),
    (ClientFault::NotHere, "8 NotHere"),
    (ClientFault::NotWritable, "9 NotWritable"),
    (ClientFault::WrongLength, "10 WrongLength"),
    (ClientFault::PoolFull, "11 PoolFull"),
    (ClientFault::Exhausted, "12 Exhausted"),
    (ClientFault::Memory, "13 Memory"),
];

static OF_SERVERS: [(ServerFault, &str); 2] = [
    (ServerFault::Exhausted, "1 Exhausted"),
    (ServerFault::Memory, "2 Memory"),
];

static OF_REFUSALS: [(Refusal, &str); 12] = [
    (Refusal::NotWelcome, "1 NotWelcome"),
    (Refusal::NoTransaction, "2 NoTransaction"),
    (Refusal::TransactionOpen, "3 TransactionOpen"),
    (Refusal::Committing, "4 Committing"),
    (Refusal::Waiting, "5 Waiting"),
    (Refusal::PageRange, "6 PageRange"),
    (Refusal::NotRead, "7 NotRead"),
    (Refusal::NotHere, "8 NotHere"),
    (Refusal::NotWritable, "9 NotWritable"),
    (Refusal::WrongLength, "10 WrongLength"),
    (Refusal::PoolFull, "11 PoolFull"),
    (Refusal::Exhausted, "12 Exhausted"),
];

static OF_KEYS: [(Key, &str); 9] = [
    (Key::Clients, "clients"),
    (Key::Pages, "pages"),
    (Key::PageSize, "page_size"),
    (Key::Slots, "slots"),
    (Key::Kin, "kin"),
    (Key::Kout, "kout"),
    (Key::Jobs, "jobs"),
    (Key::KeepWrite, "keep_write"),
    (Key::Lives, "lives"),
];

static OF_SCHEDULES: [(ScheduleFault, &str); 7] = [
    (
        ScheduleFault::NotText { line: 1 },
        "schedule line 1: NotText",
    ),
    (ScheduleFault::Word { line: 3 }, "schedule line 3: Word"),
    (ScheduleFault::Count { line: 1 }, "schedule line 1: Count"),
    (ScheduleFault::Number { line: 1 }, "schedule line 1: Number"),
    (ScheduleFault::Range { line: 1 }, "schedule line 1: Range"),
    (
        ScheduleFault::Long { line: 1_000_001 },
        "schedule line 1000001: Long",
    ),
    (ScheduleFault::Memory, "memory"),
];

/// Whether each fault of a configuration is, and a key that no setting has.
fn configs_are_printed(alloc: Global) -> bool {
    let faults = [
        (ConfigFault::Text, "text"),
        (ConfigFault::Missing(Key::Pages), "missing pages"),
        (
            ConfigFault::NotWhole(Key::Slots),
            "slots is not a whole number",
        ),
        (ConfigFault::Limit(LimitFault::Kin), "limit 5 Kin"),
        (ConfigFault::Jobs, "jobs"),
        (ConfigFault::KeepWrite, "keep_write"),
        (ConfigFault::Lives, "lives"),
        (ConfigFault::Memory, "memory"),
    ];
    let Ok(name) = String::from_str(alloc, "colour") else {
        return false;
    };
    let unknown = [(ConfigFault::Unknown(name), "unknown colour")];
    are_printed(alloc, &faults) && are_printed(alloc, &unknown)
}

/// Whether each line is of what ends a play, or a run, before it begins.
fn lines_are_printed(alloc: Global) -> bool {
    let word = ScheduleFault::Word { line: 3 };
    let of_plays = [
        (ReadFault::Config(ConfigFault::Jobs), "config: jobs"),
        (ReadFault::Schedule(word), "schedule line 3: Word"),
        (ReadFault::Memory, "memory"),
    ];
    let of_runs = [
        (RunFault::Config(ConfigFault::Text), "config: text"),
        (RunFault::FewPages, "config: run needs 2 pages"),
        (RunFault::KeepWrite, "config: run needs keep_write 0"),
        (RunFault::Memory, "memory"),
    ];
    are_printed(alloc, &of_plays) && are_printed(alloc, &of_runs)
}

#[test]
fn texts_of_faults(rt: HostRuntime) {
    assert!(rt; are_printed(rt.alloc(), &OF_LIMITS));
    assert!(rt; are_printed(rt.alloc(), &OF_FRAMES));
    assert!(rt; are_printed(rt.alloc(), &OF_BYTES));
    assert!(rt; are_printed(rt.alloc(), &OF_CHOOSERS));
    assert!(rt; are_printed(rt.alloc(), &OF_POOLS));
    assert!(rt; are_printed(rt.alloc(), &OF_CLIENTS));
    assert!(rt; are_printed(rt.alloc(), &OF_SERVERS));
    assert!(rt; are_printed(rt.alloc(), &OF_REFUSALS));
    assert!(rt; are_printed(rt.alloc(), &OF_SCHEDULES));
    assert!(rt; are_printed(rt.alloc(), &OF_KEYS));
    assert!(rt; configs_are_printed(rt.alloc()));
    assert!(rt; lines_are_printed(rt.alloc()));
}
