//! What is said of a service at its end.
ghost use Rattle.std.specs.Prelude.{◌≡◌, ◌⊎◌, ◌++◌, [], ◌∷◌, IfOk, OnOk};
ghost use Rattle.std.specs.Io.KnownBytes.{Appends};
ghost use Rattle.cb_serve.specs.Endings.{PrintsEnding, PrintsFault, passed_line, round_line};
ghost use Rattle.cb_serve.specs.Endings.{round_status};

use crate::fault::{RoundFault, ServeFault};
use crate::serving::Served;
use std::io;
use std::io::Write;

/// Prints to `err` how many frames were passed over, if any were, and why serving ended, if it
/// ended before the input. Returns the program's status. It fails if a writer did, the output among
/// them.
pub fn print_served<E: Write>(served: Served, err: &mut E) -> io::Result<u8>
    ensures prints { IfOk result (λ status. PrintsEnding served.passed_over served.ending status
        (E.contents err.old) (E.contents err.new)) }
    ensures status { IfOk result (λ status. (status ≡ 0) ⊎ (status ≡ 3) ⊎ (status ≡ 4)) }
{
    let Served {
        passed_over,
        ending,
    } = served;
    put_passed_over(passed_over, err)?;
    match ending {
        Ok(()) => Ok(0),
        Err(fault) => print_fault(fault, err),
    }
}

/// Prints how many frames were passed over, if any were.
fn put_passed_over<E: Write>(passed_over: u64, err: &mut E) -> io::Result<()>
    ensures { OnOk result
        (Appends (E.contents err.old) (E.contents err.new) (passed_line passed_over)) }
{
    if passed_over == 0 {
        return Ok(());
    }
    writeln!(err, "passed over {passed_over}")
}

/// Prints why it ended, and returns the program's status. Where the output couldn't be written,
/// that fault is handed on.
fn print_fault<E: Write>(fault: ServeFault, err: &mut E) -> io::Result<u8>
    ensures prints { IfOk result (λ status. PrintsFault fault status
        (E.contents err.old) (E.contents err.new)) }
    ensures status { IfOk result (λ status. (status ≡ 3) ⊎ (status ≡ 4)) }
{
    match fault {
        ServeFault::Round(fault) => print_round(fault, err),
        fault => {
            writeln!(err, "{fault}")?;
            Ok(fault.status())
        }
    }
}

/// Prints why a round wasn't finished, and returns the program's status. If the output couldn't be
/// written, that fault is handed on.
fn print_round<E: Write>(fault: RoundFault, err: &mut E) -> io::Result<u8>
    ensures line { OnOk result (Appends (E.contents err.old) (E.contents err.new)
        (round_line fault ++ 10 ∷ [])) }
    ensures value { IfOk result (λ status. status ≡ round_status fault) }
    ensures status { IfOk result (λ status. (status ≡ 3) ⊎ (status ≡ 4)) }
{
    match fault {
        RoundFault::Output(refusal) => Err(refusal.error()),
        fault => {
            writeln!(err, "{fault}")?;
            Ok(fault.status())
        }
    }
}
