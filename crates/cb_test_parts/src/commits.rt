//! Commits of client 0 that tests apply.
ghost use Rattle.cb_commit.specs.Stores.{IsOf};

use cb_commit::Commits;
use cb_frame::{Body, Frame, Write, Writes};
use cb_page::{ClientNo, Incarnation, Limits, TxnNo};
use std::alloc::AllocError;

/// A commit of client 0, of its first incarnation.
pub fn commit_frame(txn: TxnNo, writes: Vec<Write>) -> Frame {
    Frame {
        client: ClientNo::new(0),
        incarnation: Incarnation::new(1),
        body: Body::Commit {
            txn,
            writes: Writes::from_vec(writes),
        },
    }
}

/// Applies a commit; `false` if the frame isn't one that fits, or no number is left.
pub fn apply(limits: &Limits, commits: &mut Commits, frame: Frame) -> Result<bool, AllocError>
    requires { IsOf limits.now commits.old.store }
    ensures { IsOf limits.now commits.new.store }
{
    if !frame.fits(limits) || commits.next_number().is_none() {
        return Ok(false);
    }
    let Frame {
        client,
        incarnation,
        body,
    } = frame;
    match body {
        Body::Commit { txn, writes } => {
            commits.apply(client, incarnation, txn, writes)?;
            Ok(true)
        }
        Body::Short(_) | Body::Granted { .. } => Ok(false),
    }
}
