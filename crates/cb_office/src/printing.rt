//! What is printed of a run.
ghost use Rattle.std.specs.Prelude.{◌≡◌, IfOk};
ghost use Rattle.cb_office.specs.Outcomes.{PrintsRun};

use crate::ending::EarlyEnding;
use std::io;
use std::io::Write;

/// How many jobs of a run were committed, and the sum of the counters in its tables.
#[derive(Clone, Copy)]
pub struct Counted {
    pub committed: u64,
    pub sum: u64,
}

/// Prints the counts of a run to `out`, or to `err` why it ended before all was done. Returns the
/// program's status. It fails only if a writer does.
pub fn print_run<O: Write, E: Write>(
    outcome: Result<Counted, EarlyEnding>,
    out: &mut O,
    err: &mut E,
) -> io::Result<u8>
    ensures { IfOk result (λ status. PrintsRun outcome status
        (O.contents out.old) (O.contents out.new) (E.contents err.old) (E.contents err.new)) }
{
    match outcome {
        Ok(counted) => {
            let Counted { committed, sum } = counted;
            write!(out, "committed {committed}\nsum {sum}\n")?;
            Ok(0)
        }
        Err(ending) => {
            writeln!(err, "{ending}")?;
            Ok(ending.status())
        }
    }
}
