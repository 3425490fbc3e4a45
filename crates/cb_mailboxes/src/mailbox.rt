//! The mailbox of one client.
ghost use Rattle.std.specs.Prelude.{◌≡◌, ◌↔◌, ◌<◌, [], drop, length, slice_get, IsTrue, OnErr};
ghost use Rattle.std.specs.Prelude.{OnOk};
ghost use Rattle.cb_mailboxes.specs.Mailboxes.{Moves};

use cb_frame::Frame;
use std::alloc::{AllocError, Global};
use std::collections::VecDeque;
use std::marker::Model;

/// Frames, first in first out. Only `take_last` takes memory.
#[derive(Drop)]
pub(crate) struct Mailbox {
    frames: VecDeque<Frame>,
}

impl Model for Mailbox {
    ghost use Rattle.std.specs.Prelude.{List};
    ghost use Rattle.cb_frame.specs.declared.frame.Frame.{Frame};

    ghost Value = { List Frame };

    ghost view = { λ mailbox. mailbox.frames.items };
}

impl Mailbox {
    /// No frames. It takes no memory.
    pub(crate) fn new(alloc: Global) -> Mailbox
        ensures { result ≡ [] }
    {
        Mailbox {
            frames: VecDeque::new(alloc),
        }
    }

    /// Moves the last of those frames behind its own.
    ///
    /// `AllocError` only if memory was refused; nothing is moved then.
    pub(crate) fn take_last(&mut self, late: &mut Vec<Frame>) -> Result<(), AllocError>
        requires { 0 < length late.old.items }
        ensures ok { OnOk result (Moves late.old.items self.old late.new.items self.new) }
        ensures err { OnErr result (self.new ≡ self.old) }
        ensures kept { OnErr result (late.new.items ≡ late.old.items) }
    {
        self.frames.reserve(1)?;
        if let Some(frame) = late.pop() {
            self.frames.push_back_reserved(frame);
        }
        Ok(())
    }

    /// Takes the oldest frame.
    pub(crate) fn pop(&mut self) -> Option<Frame>
        ensures oldest { result ≡ slice_get self.old 0 }
        ensures rest { self.new ≡ drop 1 self.old }
    {
        self.frames.pop_front()
    }

    /// Whether there are no frames.
    pub(crate) fn is_empty(&self) -> bool
        ensures { IsTrue result ↔ (self.now ≡ []) }
    {
        self.frames.is_empty()
    }

    /// No frames are left.
    pub(crate) fn clear(&mut self)
        ensures { self.new ≡ [] }
    {
        self.frames.clear();
    }
}
