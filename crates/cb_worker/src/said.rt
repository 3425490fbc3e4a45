//! What a client said and nobody handed in yet.
ghost use Rattle.std.specs.Prelude.{◌≡◌, ◌↔◌, ◌∷◌, [], IsTrue, drop, slice_get};
ghost use Rattle.std.specs.Option.{option_copied};
ghost use Rattle.cb_worker.specs.Asking.{frame_of};

use cb_frame::{Frame, ShortFrame};
use std::alloc::Global;
use std::marker::Model;

/// Frames that are still to be handed in, the oldest first.
///
/// An ask, which is said where nothing else is left, has a place of its own: so it takes no memory.
#[derive(Drop)]
pub(crate) struct Said {
    /// The newest first.
    frames: Vec<Frame>,
    /// It is handed in after them.
    ask: Option<Frame>,
}

impl Model for Said {
    ghost use Rattle.std.specs.Prelude.{List, ◌++◌, option_to_list, reverse};
    ghost use Rattle.cb_frame.specs.declared.frame.Frame.{Frame};

    ghost Value = { List Frame };

    ghost view = { λ said. reverse said.frames.items ++ option_to_list said.ask };
}

impl Said {
    /// Nothing.
    pub(crate) fn nothing(alloc: Global) -> Said
        ensures { result ≡ [] }
    {
        Said::of(Vec::new(alloc))
    }

    /// These frames, in the order in which they were sent.
    pub(crate) fn of(mut frames: Vec<Frame>) -> Said
        ensures { result ≡ frames.items }
    {
        frames.reverse();
        Said { frames, ask: None }
    }

    /// The client asks.
    pub(crate) fn keep(&mut self, ask: ShortFrame)
        requires { self.old ≡ [] }
        ensures { self.new ≡ frame_of ask ∷ [] }
    {
        self.ask = Some(Frame::from(ask));
    }

    /// Whether nothing is left.
    pub(crate) fn is_empty(&self) -> bool
        ensures { IsTrue result ↔ (self.now ≡ []) }
    {
        self.frames.is_empty() && self.ask.is_none()
    }

    /// The oldest frame.
    pub(crate) fn oldest(&self) -> Option<&Frame>
        ensures { option_copied result ≡ slice_get self.now 0 }
    {
        match self.frames.as_slice().last() {
            Some(frame) => Some(frame),
            None => self.ask.as_ref(),
        }
    }

    /// Lets the oldest frame go.
    pub(crate) fn remove_oldest(&mut self)
        ensures { self.new ≡ drop 1 self.old }
    {
        match self.frames.len().checked_sub(1) {
            Some(rest) => self.frames.truncate(rest),
            None => self.ask = None,
        }
    }
}
