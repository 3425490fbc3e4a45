//! Which jobs were committed.
ghost use Rattle.std.specs.Prelude.{◌≡◌, ◌<◌, ◌≤◌, ◌^◌, ◌↔◌, true, false, Err, length, replicate};
ghost use Rattle.std.specs.Prelude.{slice_index_or, slice_set, IfOk, OnOk, OnErr};
ghost use Rattle.cb_office.specs.Tallies.{flags_set, is_done, jobs_done, jobs_of, with_done};

use cb_page::{ClientNo, CommitNo};
use std::alloc::{AllocError, Global};
use std::fmt;
use std::marker::Model;
use thiserror::Error;

/// A job that was committed, and the number of its commit.
#[derive(Clone, Copy, Debug, PartialEq, Eq)]
pub struct JobDone {
    pub client: ClientNo,
    pub job: u64,
    pub number: CommitNo,
}

/// Why a job isn't counted. The text is the fault's number and name.
#[derive(Clone, Copy, Debug, PartialEq, Eq, Error)]
pub enum TallyFault {
    /// The job was counted before.
    Double,
    /// There is no such client, or it has no such job.
    Stranger,
}

impl fmt::Display for TallyFault {
    ghost use Rattle.std.specs.Prelude.{Some};
    ghost use Rattle.cb_office.specs.FaultTexts.{fault_text};

    ghost output = { λ fault. Some (fault_text fault) };

    fn fmt<W: fmt::Write>(&self, f: &mut fmt::Formatter<W>) -> fmt::Result {
        let text = match self {
            TallyFault::Double => "1 Double",
            TallyFault::Stranger => "2 Stranger",
        };
        write!(f, "{text}")
    }
}

/// Which of one client's jobs are done. In contracts it is a list of flags by job.
#[derive(Drop)]
struct Jobs {
    done: Vec<bool>,
}

impl Model for Jobs {
    ghost use Rattle.std.specs.Prelude.{List, Bool};

    ghost Value = { List Bool };

    ghost view = { λ jobs. jobs.done.items };
}

impl Jobs {
    /// None of so many is done.
    fn new(alloc: Global, jobs: u32) -> Result<Jobs, AllocError>
        ensures { IfOk result (λ made. made ≡ replicate jobs false) }
    {
        Ok(Jobs {
            done: vec![in alloc; false; jobs as usize]?,
        })
    }

    /// Sets a job's flag.
    fn set(&mut self, job: u64) -> Result<(), TallyFault>
        ensures stranger { (result ≡ Err TallyFault.Stranger) ↔ (length self.old ≤ job) }
        ensures double { (result ≡ Err TallyFault.Double)
            ↔ (slice_index_or self.old job false ≡ true) }
        ensures ok { OnOk result (self.new ≡ slice_set self.old job true) }
        ensures err { OnErr result (self.new ≡ self.old) }
    {
        if job >= self.done.len() as u64 {
            return Err(TallyFault::Stranger);
        }
        let job = job as usize;
        if self.done[job] {
            return Err(TallyFault::Double);
        }
        self.done[job] = true;
        Ok(())
    }
}

/// Which jobs of which clients are done, each counted once. In contracts it is a list by client of
/// flags by job. Only `new` takes memory.
pub struct Tally {
    clients: Vec<Jobs>,
    committed: u64,
}

// By hand: see docs/PROVING.md, "Drops".
impl Drop for Tally {
    fn drop(self) {
        let Tally {
            clients: _,
            committed: _,
        } = self;
    }
}

impl Model for Tally {
    ghost use Rattle.std.specs.Prelude.{List, Bool};
    ghost use Rattle.cb_office.specs.Tallies.{IsTally};

    ghost Value = { List (List Bool) };

    ghost view = { λ tally. tally.clients.items };

    ghost invariant = { λ tally. IsTally tally.committed tally.clients.items };
}

impl Tally {
    /// A tally for so many clients with so many jobs each, none of which is done.
    pub fn new(alloc: Global, clients: u16, jobs: u32) -> Result<Tally, AllocError>
        ensures { IfOk result (λ tally. tally ≡ replicate clients (replicate jobs false)) }
    {
        Ok(Tally {
            clients: none_done(alloc, clients, jobs)?,
            committed: 0,
        })
    }

    /// Counts a job that was committed, if it is one of these and wasn't counted before.
    #[tactic(auto, using(crate::proofs::JobsDone::tally_fits, crate::proofs::JobsDone::tally_more))]
    pub fn add(&mut self, done: JobDone) -> Result<(), TallyFault>
        ensures stranger { (result ≡ Err TallyFault.Stranger)
            ↔ (length (jobs_of self.old done.client) ≤ done.job) }
        ensures double { (result ≡ Err TallyFault.Double)
            ↔ (is_done self.old done.client done.job ≡ true) }
        ensures ok { OnOk result (self.new ≡ with_done self.old done.client done.job) }
        ensures err { OnErr result (self.new ≡ self.old) }
    {
        let client = done.client.index();
        if client >= self.clients.len() {
            return Err(TallyFault::Stranger);
        }
        self.clients[client].set(done.job)?;
        self.committed += 1;
        Ok(())
    }

    /// How many jobs were counted.
    pub fn committed(&self) -> u64
        ensures { result ≡ jobs_done self.now }
    {
        self.committed
    }
}

/// A tally for so many clients with so many jobs each, none of which is done.
fn none_done(alloc: Global, clients: u16, jobs: u32) -> Result<Vec<Jobs>, AllocError>
    ensures { IfOk result (λ made. made.items ≡ replicate clients (replicate jobs false)) }
{
    let mut made = Vec::new(alloc);
    for _client in 0..clients {
        made.push(Jobs::new(alloc, jobs)?)?;
    }
    Ok(made)
}
