//! Who is told of a run.
ghost use Rattle.std.specs.Prelude.{◌≡◌, ℕ};

use cb_page::CommitNo;

/// Is told of a run while it goes on.
pub trait Watch {
    /// What is made of who is told of a batch that ends with the commit of this number.
    ghost tells: { Self → ℕ → Self → Type 0 };

    /// A run of so many jobs begins, over a store whose last commit has this number.
    fn begins(&mut self, jobs: u64, number: u64);

    /// A batch was written: the commits up to this number are on disk.
    fn flushed(&mut self, number: CommitNo)
        ensures { tells self.old number self.new };

    /// Nothing is left to write, and the flusher waits for more. It has the office's lock, which it
    /// releases only by waiting, so this call may not take the lock.
    fn waits(&mut self);
}

/// A watch that shows nothing.
#[derive(Drop)]
pub struct Unwatched;

impl Watch for Unwatched {
    ghost tells = { λ watch number after. after ≡ watch };

    fn begins(&mut self, _jobs: u64, _number: u64) {}

    fn flushed(&mut self, _number: CommitNo) {}

    fn waits(&mut self) {}
}
