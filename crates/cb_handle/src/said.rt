//! What a server or a client said and nobody fetched yet.
ghost use Rattle.std.specs.Prelude.{◌≡◌, ◌≢◌, ◌≤◌, ◌↔◌, ◌∷◌, [], IfErr, IfOk, IfSome, IsOk};
ghost use Rattle.std.specs.Prelude.{IsTrue, OnErr, Option, Some, drop, length, slice_get, take};
ghost use Rattle.std.specs.List.{AllByRecursion};
ghost use Rattle.std.specs.Option.{option_copied};
ghost use Rattle.cb_frame.specs.Grammar.{Fits, FitsSome};
ghost use Rattle.cb_handle.specs.Causes.{Decides, after_fetch, said_cause, said_may};
ghost use Rattle.cb_handle.specs.Fetching.{Fetches};
ghost use Rattle.cb_handle.specs.declared.refusal.HandleRefusal.{HandleRefusal as Why};
ghost use Rattle.cb_handle.specs.declared.refusal.HandleRefusal.TheVariants as refusal;

use crate::refusal::HandleRefusal;
use cb_frame::{Frame, encode};
use cb_page::{ClientNo, Limits};
use std::alloc::Global;
use std::marker::Model;

/// Frames that are still to be fetched, the oldest first. Each fits some limits, so it can be
/// encoded. A frame that is sent alone has a place of its own, and takes no memory.
pub struct Said {
    /// The newest first.
    frames: Vec<Frame>,
    /// It is fetched after them.
    single: Option<Frame>,
}

// By hand: see docs/PROVING.md, "Drops".
impl Drop for Said {
    fn drop(self) {
        let Said {
            frames: _,
            single: _,
        } = self;
    }
}

impl Model for Said {
    ghost use Rattle.std.specs.List.{AllByRecursion};
    ghost use Rattle.std.specs.Prelude.{List, ◌++◌, option_to_list, reverse};
    ghost use Rattle.cb_frame.specs.Grammar.{FitsSome};
    ghost use Rattle.cb_frame.specs.declared.frame.Frame.{Frame};

    ghost Value = { List Frame };

    ghost view = { λ said. reverse said.frames.items ++ option_to_list said.single };

    ghost invariant = { λ said.
        AllByRecursion FitsSome (reverse said.frames.items ++ option_to_list said.single) };
}

impl Said {
    /// Nothing.
    pub fn nothing(alloc: Global) -> Said
        ensures { result ≡ [] }
    {
        Said {
            frames: Vec::new(alloc),
            single: None,
        }
    }

    /// These frames, in the order in which they were sent.
    pub fn of(limits: &Limits, mut frames: Vec<Frame>) -> Said
        requires { AllByRecursion (Fits limits.now) frames.items }
        ensures { result ≡ frames.items }
    {
        // In range by their type: `page_size` says so.
        let _known = limits.page_size();
        frames.reverse();
        Said {
            frames,
            single: None,
        }
    }

    /// A frame alone.
    pub fn keep(&mut self, limits: &Limits, frame: Frame)
        requires nothing { self.old ≡ [] }
        requires fits { Fits limits.now frame }
        ensures { self.new ≡ frame ∷ [] }
    {
        // In range by their type: `page_size` says so.
        let _known = limits.page_size();
        self.single = Some(frame);
    }

    /// Refuses if something is still to be fetched.
    pub fn check_fetched(&self) -> Result<(), HandleRefusal>
        ensures first { IfErr result (λ refused. (rest : Option Why)
            → after_fetch self.now rest ≡ Some refused) }
        ensures fetched { IsOk result → self.now ≡ [] }
    {
        if self.is_empty() {
            Ok(())
        } else {
            Err(HandleRefusal::Unfetched)
        }
    }

    /// Whether nothing is left.
    pub fn is_empty(&self) -> bool
        ensures { IsTrue result ↔ (self.now ≡ []) }
    {
        self.frames.is_empty() && self.single.is_none()
    }

    /// The oldest frame.
    pub fn oldest(&self) -> Option<&Frame>
        ensures oldest { option_copied result ≡ slice_get self.now 0 }
        ensures fits { IfSome result (λ frame. FitsSome frame.now) }
    {
        match self.frames.as_slice().last() {
            Some(frame) => Some(frame),
            None => self.single.as_ref(),
        }
    }

    /// Lets the oldest frame go.
    pub fn remove_oldest(&mut self)
        ensures { self.new ≡ drop 1 self.old }
    {
        match self.frames.len().checked_sub(1) {
            Some(rest) => self.frames.truncate(rest),
            None => self.single = None,
        }
    }
}

impl Said {
    /// Writes the bytes of the oldest frame to the front of the room, puts their count into `size`,
    /// and lets the frame go. Returns the client that it comes from or goes to.
    ///
    /// `Nothing` if nothing is left. `Room` if the bytes don't fit into the room; `size` has their
    /// count then too. `Memory` if a growth was refused for them.
    #[tactic(auto, using(crate::proofs::Kept::oldest_first))]
    pub fn fetch(
        &mut self,
        alloc: Global,
        room: &mut [u8],
        size: &mut usize,
    ) -> Result<ClientNo, HandleRefusal>
        ensures ok { IfOk result (λ client. Fetches self.old room.old room.new size.new client
            self.new) }
        ensures why { Decides (said_cause self.old) (said_may self.old (length room.old) size.new)
            result }
        ensures unchanged { OnErr result (self.new ≡ self.old) }
        ensures kept { OnErr result (room.new ≡ room.old) }
        ensures size { IfErr result (λ refused. refused ≢ refusal.Room → size.new ≡ size.old) }
    {
        let Some(frame) = self.oldest() else {
            return Err(HandleRefusal::Nothing);
        };
        let bytes = encode(alloc, frame)?;
        let client = frame.client;
        let len = bytes.len();
        *size = len;
        if len > room.len() {
            return Err(HandleRefusal::Room);
        }
        put_front(bytes.as_slice(), room);
        self.remove_oldest();
        Ok(client)
    }
}

/// Copies the bytes to the front of the room.
#[tactic(auto, using(std::proofs::lemmas::List::take_at))]
fn put_front(bytes: &[u8], room: &mut [u8])
    requires { length bytes.now ≤ length room.old }
    ensures front { take (length bytes.now) room.new ≡ bytes.now }
    ensures rest { drop (length bytes.now) room.new ≡ drop (length bytes.now) room.old }
    ensures size { length room.new ≡ length room.old }
{
    room[..bytes.len()].copy_from_slice(bytes);
}
