//! Limits, as C gives them, and objects in boxes.
ghost use Rattle.std.specs.Prelude.{◌≡◌, IfOk, None, false};
ghost use Rattle.cb_handle.specs.Causes.{Decides, in_limits, memory, never};
ghost use Rattle.rughvadi.specs.Limits.{bounds_of};

use cb_handle::{HandleRefusal, Object};
use cb_page::Limits;
use std::alloc::Global;

/// The store's limits, as C gives them.
#[repr(C)]
#[derive(Clone, Copy)]
pub struct StoreLimits {
    pub clients: u64,
    pub pages: u64,
    pub page_size: u64,
    pub slots: u64,
    pub kin: u64,
    pub kout: u64,
    /// Other than 0: write permission is kept.
    pub keep_write: u64,
}

/// The limits, if each is in its range.
pub(crate) fn limits_of(l: &StoreLimits) -> Result<Limits, HandleRefusal>
    ensures limits { IfOk result (λ limits. limits ≡ bounds_of l.now) }
    ensures why { Decides (in_limits (bounds_of l.now)) never result }
{
    match Limits::new(l.clients, l.pages, l.page_size, l.slots, l.kin, l.kout) {
        Ok(limits) => Ok(kept_if(limits, l.keep_write != 0)),
        Err(fault) => Err(HandleRefusal::Limits(fault)),
    }
}

/// The same limits, with write permission kept or not.
fn kept_if(limits: Limits, keep_write: bool) -> Limits
    requires { limits.keep_write ≡ false }
    ensures { result ≡ record limits { keep_write = keep_write } }
{
    if keep_write { limits.keeping() } else { limits }
}

/// The object in a box.
pub(crate) fn boxed(alloc: Global, object: Object) -> Result<Box<Object>, HandleRefusal>
    ensures made { IfOk result (λ made. made.value ≡ object) }
    ensures why { Decides None memory result }
{
    match Box::new(alloc, object) {
        Ok(boxed) => Ok(boxed),
        Err(_) => Err(HandleRefusal::Memory),
    }
}
