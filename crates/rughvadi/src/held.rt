//! A box as a pointer that C holds.
ghost use Rattle.std.specs.Option.{MatchOption};
ghost use Rattle.std.specs.Prelude.{◌≡◌};
ghost use Rattle.std_alloc.specs.Box.Ownership.{box_owns};
ghost use Rattle.cb_handle.specs.contracts.object.Object.{the_row};
ghost use Rattle.cb_handle.specs.declared.object.Object.{Object};
ghost use Rattle.std.specs.contracts.impls.GlobalAllocator.TheImpl.{ghosts};
ghost use Rattle.std.specs.Prelude.{Bool, true, false};
ghost use Rattle.rughvadi.specs.Slot.{owned_if};

use crate::loose::Loose;
use cb_handle::Object;
use std::alloc::Global;
use std::marker::Model;
use std::mem::replace;

/// A box of an object as its pointer, or no box. Only the prover knows which object it is.
#[repr(C)]
#[derive(Drop)]
pub struct RawBox {
    at: *mut u8,
    alloc: Global,
    pub ghost live: { Bool },
    pub ghost value: { Object },
}

impl Model for RawBox {
    ghost also_owns = { λ h. owned_if h.live
        (box_owns (ghosts.dealloc_token h.alloc) the_row h.at h.value) };
}

// Nobody else has the object, and each of its parts may go to another thread.
unsafe impl Send for RawBox {}

impl RawBox {
    pub(crate) fn of(from: Loose<Object, Global>) -> RawBox
        ensures value { result.value ≡ from.value }
        ensures live { result.live ≡ true }
    {
        let Loose { at, alloc } = from;
        RawBox {
            at: at as *mut u8,
            alloc,
        }
    }

    pub(crate) fn into_loose(self) -> Loose<Object, Global>
        requires { self.live ≡ true }
        ensures { result.value ≡ self.value }
    {
        let RawBox { at, alloc } = self;
        Loose {
            at: at as *mut Object,
            alloc,
        }
    }

    pub(crate) fn none(alloc: Global) -> RawBox
        ensures { result.live ≡ false }
    {
        RawBox {
            at: std::ptr::null_mut(),
            alloc,
        }
    }
}

/// What C holds: nothing, or an object.
#[repr(C)]
#[derive(Drop)]
pub struct Handle {
    pub live: bool,
    pub held: RawBox,
    ghost tied: { held.live ≡ live },
}

impl Handle {
    pub(crate) fn of(b: Box<Object>) -> Handle
        ensures value { result.held.value ≡ b.value }
        ensures live { result.live ≡ true }
    {
        Handle {
            live: true,
            held: RawBox::of(Loose::of(b)),
        }
    }

    /// Takes the object out, and leaves nothing.
    pub(crate) fn take(&mut self, alloc: Global) -> Option<Box<Object>>
        ensures value { MatchOption result (self.old.live ≡ false)
            (λ b. (self.old.live ≡ true) × (b.value ≡ self.old.held.value)) }
        ensures left { self.new.live ≡ false }
    {
        let was = replace(
            self,
            Handle {
                live: false,
                held: RawBox::none(alloc),
            },
        );
        if was.live {
            Some(was.held.into_loose().into_box())
        } else {
            None
        }
    }
}
