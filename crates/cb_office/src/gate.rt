//! Who may begin a job.
use cb_page::ClientNo;

/// Whether a job may begin.
#[derive(Clone, Copy, Debug, PartialEq, Eq)]
pub enum Turn {
    Go,
    Later,
}

/// Is asked before each job, and told after each commit. No call of it may wait for another
/// client's job: the client still has its ticket, without which the other one mostly isn't let in.
/// If a job has to wait for others, the gate says [`Turn::Later`], and the ticket goes back.
pub trait Gate {
    /// Whether the client may begin the job now.
    fn before_job(&self, client: ClientNo, job: u64) -> Turn;

    /// Hears that the client's job was committed.
    fn after_commit(&self, client: ClientNo, job: u64);
}
