//! That a run is over: who says so holds a token, which is made under the lock alone.
ghost use Rattle.std.specs.Prelude.{◌≡◌, false, IfErr, IfOk, IfSome, None};
ghost use Rattle.cb_office.specs.Ends.{IsWritten};
ghost use Rattle.cb_office.specs.Stopping.{EndsAt, IsNext};
ghost use Rattle.cb_station.specs.Flags.{is_over};
ghost use Rattle.std.specs.Sync.Mutex.{mutex_guard_value};

use cb_commit::Batch;
use cb_shelf::ShelfFault;
use cb_station::{Office, Station};
use std::alloc::Global;
use std::marker::Model;
use std::sync::MutexGuard;

/// Says that a run was over at this office: no call of `work` commits any more, and each commit is
/// on disk. Only the flusher makes one, at the station that lies under the office's lock
/// (`next_at`), and nobody can copy it. In contracts it is the office's address, which is fixed as
/// long as the token exists, and whether the run was cut off then.
#[derive(Drop)]
pub struct Over<'a> {
    office: &'a Office,
    cut_off: bool,
}

impl<'a> Model for Over<'a> {
    ghost use Rattle.cb_office.specs.Ends.{OverState};

    ghost Value = { OverState };

    ghost view = { λ over. record { office = over.office.ref_ptr; cut_off = over.cut_off } };
}

impl Over<'_> {
    /// Whether the run was cut off as it ended: the station was halted, or calls of `work` were
    /// still to end.
    pub fn is_cut_off(&self) -> bool
        ensures { result ≡ self.now.cut_off }
    {
        self.cut_off
    }
}

/// What the flusher does next.
#[derive(Drop)]
pub(crate) enum Next<'a> {
    /// It writes a batch.
    Batch(Batch),
    /// It ends.
    Over(Over<'a>),
}

/// What the flusher does next at the locked station of this office: the next batch; that the run is
/// over, if nothing is left to write and no call of `work` commits any more; or nothing, if it has
/// to wait.
///
/// The lock lives as long as the token may, so it is none of an office that the caller made.
pub(crate) fn next_at<'a>(
    alloc: Global,
    office: &'a Office,
    station: &MutexGuard<'a, Station>,
) -> Option<Result<Next<'a>, ShelfFault>>
    ensures office { IfSome result (λ next. IfOk next (EndsAt office.entry.ref_ptr)) }
    ensures next { IfSome result (λ next. IfOk next (IsNext (mutex_guard_value station.now))) }
    ensures fault { IfSome result (λ next. IfErr next (λ fault. fault ≡ ShelfFault.Memory)) }
    ensures waits { result ≡ None → (is_over (mutex_guard_value station.now).flags ≡ false)
        × IsWritten (mutex_guard_value station.now) }
{
    // What holds of every station, its history says.
    let _known = station.history();
    let Ok(batch) = station.batch(alloc) else {
        return Some(Err(ShelfFault::Memory));
    };
    if let Some(batch) = batch {
        return Some(Ok(Next::Batch(batch)));
    }
    if !station.is_over() {
        return None;
    }
    let cut_off = station.is_cut_off();
    Some(Ok(Next::Over(Over { office, cut_off })))
}
