//! The settings under which workers run.
ghost use Rattle.std.specs.Prelude.{◌≡◌, ◌≢◌, Some, IfOk, IfErr};
ghost use Rattle.cb_console.specs.RunSettings.{BecomesOfConfig, CanRun, IsRunRefusal};
ghost use Rattle.cb_console.specs.RunSettings.{PrintsRefusal, run_fault_line};
ghost use Rattle.cb_console.specs.declared.running.RunFault.TheVariants as fault;

use crate::config::{Config, ConfigFault, read_config};
use std::alloc::Global;
use std::io::Write;
use std::{fmt, io};
use thiserror::Error;

/// Why no worker starts. The text is the program's line of it.
#[derive(Debug, Drop, Error)]
pub enum RunFault {
    Config(ConfigFault),
    /// There is one page; each job counts in two.
    FewPages,
    /// The clients would keep their permissions to write. The office keeps none.
    KeepWrite,
    Memory,
}

impl fmt::Display for RunFault {
    ghost output = { λ fault. Some (run_fault_line fault) };

    fn fmt<W: fmt::Write>(&self, f: &mut fmt::Formatter<W>) -> fmt::Result {
        match self {
            RunFault::Config(fault) => write!(f, "config: {fault}"),
            RunFault::FewPages => write!(f, "config: run needs 2 pages"),
            RunFault::KeepWrite => write!(f, "config: run needs keep_write 0"),
            RunFault::Memory => write!(f, "memory"),
        }
    }
}

impl From<ConfigFault> for RunFault {
    ghost from_gives = { BecomesOfConfig };

    fn from(fault: ConfigFault) -> RunFault {
        match fault {
            ConfigFault::Memory => RunFault::Memory,
            fault => RunFault::Config(fault),
        }
    }
}

/// The settings of a text, if workers can run under them. A fault of the text itself is told first.
pub fn run_settings(alloc: Global, text: &[u8]) -> Result<Config, RunFault>
    ensures ok { IfOk result (CanRun text.now) }
    ensures fault { IfErr result (λ e. e ≢ fault.Memory → IsRunRefusal text.now e) }
{
    let config = read_config(alloc, text)?;
    if config.limits.pages() < 2 {
        return Err(RunFault::FewPages);
    }
    if config.limits.keep_write() {
        return Err(RunFault::KeepWrite);
    }
    Ok(config)
}

/// Prints why no worker starts. Returns the program's status. It fails only if the writer does.
pub fn print_refusal<E: Write>(fault: &RunFault, err: &mut E) -> io::Result<u8>
    ensures { IfOk result
        (λ status. PrintsRefusal fault.now status (E.contents err.old) (E.contents err.new)) }
{
    writeln!(err, "{fault}")?;
    match fault {
        RunFault::Memory => Ok(4),
        _ => Ok(2),
    }
}
