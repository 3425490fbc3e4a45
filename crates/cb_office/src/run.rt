//! What the threads of a run share.
use cb_station::Office;
use std::alloc::{AllocError, Global};

/// What each thread of a run is handed: the runtime, the allocator, the office and the gate.
pub(crate) struct Run<'a, R, G> {
    pub(crate) rt: &'a R,
    pub(crate) alloc: Global,
    pub(crate) office: &'a Office,
    pub(crate) gate: &'a G,
}

// By hand, since a derived copy would ask that runtime and gate can be copied.
impl<R, G> Clone for Run<'_, R, G> {
    fn clone(&self) -> Result<Self, AllocError> {
        Ok(*self)
    }
}

impl<R, G> Copy for Run<'_, R, G> {}
