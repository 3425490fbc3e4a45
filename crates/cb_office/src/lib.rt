//! A page server that threads share: its workers' jobs, the flusher, and a whole run.
//!
//! An [`Office`] is a [`Station`] under one lock: the server, the frames that are to be sent to
//! each client, what each client holds, and the history of commits. A [`Worker`] is a client with
//! its [`Hand`] of [`Grant`]s. It reads pages that it holds without the lock ([`Worker::hit`]), and
//! takes the office for all else.
//!
//! - [`work`] does the jobs of a client, each in a transaction of its own: one is added to the
//!   counters that pages 0 and 1 begin with ([`count_up`], [`counter_sum`]). A [`Gate`] says who
//!   may begin a job. A [`JobDone`] tells of one that was committed, and a [`Tally`] counts each of
//!   those once.
//! - [`flush_loop`] waits on the office until there is a batch, releases the lock, writes the
//!   batch, and takes the lock to report it. One write therefore serves all commits since the last,
//!   and each is answered once it is on disk. A batch that is refused comes with the stop, and
//!   [`flush_again`] writes it before any other; [`flush_in_tries`] tries it three times in all.
//! - [`run_on`] is the body of `run`: workers on threads of their own, the flusher on the calling
//!   one. Results are counted as batches are written. All jobs are committed where it says that the
//!   run is done, unless somebody else cut it off. An [`EarlyEnding`] is why it ended before that:
//!   [`of_run`] says which fault ends a run, and [`of_shelf`] how one of the store does.
//!   [`print_run`] prints the outcome.
//! - [`flush_loop_watched`], [`flush_again_watched`] and [`run_on_watched`] are the same, and tell
//!   a [`Watch`] of each batch that is on disk: [`Progress`] shows it on a writer, at most twice a
//!   second, and [`Unwatched`] doesn't.
//!
//! [`Worker::enter`] waits until a try of a transaction is let in and answers its [`Ticket`], which
//! goes back as an [`EndedTry`] by [`Office::end_try`]; a program with jobs of its own may do so,
//! and need not. Where a client can't join that the office expects at `work`, its program calls
//! [`Office::skip_work`], so that the flusher doesn't wait for it.
//!
//! The promise of each call stands in the call's own crate: here, in `cb_hands`, `cb_admission`,
//! `cb_station` or `cb_worker`. The types of which an office and a worker are made are exported
//! too.
//!
//! An example, which is compiled and run as the test `example` of `cb_tests`. A client reads a
//! page, writes it and commits:
//!
//! ```
//! worker.begin()?;
//! worker.fetch(rt, alloc, office, page)?;
//! worker.want(rt, alloc, office, page)?;
//! worker.write(page, &[7; 16])?;
//! worker.commit_at(alloc, &mut office.lock(rt))?;
//! ```
//!
//! The guard of the lock tells the flusher of the commit as it goes ([`LockedStation`]). Who has
//! that guard makes no call that takes the lock itself: it would wait for itself.
//!
//! The flusher writes that to a shelf, mostly on a thread of its own. It ends once the office is
//! closed, and then the client is told:
//!
//! ```
//! office.close(rt);
//! flush_loop(rt, alloc, office, shelf)?;
//! Ok(worker.finish(rt, alloc, office)?)
//! ```
#![tactic(auto)]

mod client;
mod counters;
mod counting;
mod desk;
mod ended_try;
mod ending;
mod faults;
mod flusher;
mod gate;
mod halted;
mod job;
mod loops;
mod over;
mod pace;
mod parts;
mod printing;
mod progress;
mod results;
mod run;
mod running;
mod tally;
mod tries;
mod watch;
mod working;

pub use cb_admission::TryEnd;
pub use cb_commit::Store;
pub use cb_hands::{Entry, Grant, Hand, Read, Shown};
pub use cb_page::{ClientNo, CommitNo, Limits, PageNo};
pub use cb_shelf::{Shelf, ShelfFault};
pub use cb_station::{EndedTry, LockedStation, Office, OfficeFault, Reported, Station, Ticket};
pub use cb_twoq::{Chooser, TwoQ};
pub use cb_worker::{Fetched, Finished, Left, Wanted, Worker, WorkerFault};
pub use counters::{count_up, counter, counter_sum};
pub use ending::{ClientEnding, EarlyEnding, FirstEnding, Noted};
pub use faults::{of_run, of_shelf};
pub use flusher::FlushStop;
pub use gate::{Gate, Turn};
pub use loops::{flush_again, flush_again_watched, flush_loop, flush_loop_watched};
pub use over::Over;
pub use parts::{PastRun, RunOver};
pub use printing::{Counted, print_run};
pub use progress::Progress;
pub use results::{DoneJob, Results};
pub use running::{RunEnd, run_and_count, run_on, run_on_watched};
pub use tally::{JobDone, Tally, TallyFault};
pub use tries::flush_in_tries;
pub use watch::{Unwatched, Watch};
pub use working::work;
