//! A tally of the greatest size.
use cb_office::{JobDone, Tally, TallyFault};
use cb_page::{ClientNo, CommitNo};
use std::test::Fail;

/// A job of a client.
fn done(client: u16, job: u64) -> JobDone {
    JobDone {
        client: ClientNo::new(client % 32),
        job,
        number: CommitNo::new(1),
    }
}

/// Every client and job that a configuration allows.
#[test]
fn greatest_tally(rt: HostRuntime) -> Result<(), Fail> {
    let mut tally = Tally::new(rt.alloc(), 32, 100_000)?;
    assert_eq!(rt; tally.add(done(31, 99_999)), Ok(()));
    assert_eq!(rt; tally.add(done(31, 100_000)), Err(TallyFault::Stranger));
    Ok(())
}
