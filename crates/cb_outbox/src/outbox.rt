//! What is to be sent, in order.
ghost use Rattle.std.specs.Prelude.{◌≡◌, ◌+◌, ◌++◌, ◌∷◌, ◌-◌, [], ◌<◌, ◌≤◌, ℕ, length, IfOk, OnOk};
ghost use Rattle.std.specs.Prelude.{IsOk, max};
ghost use Rattle.std.specs.Vec.{vec_capacity};
ghost use Rattle.cb_outbox.specs.Messages.{messages_of, short_of};
ghost use Rattle.cb_protocol.specs.Messages.{Granted};

use cb_frame::{Body, Frame, ShortBody};
use cb_page::{ClientNo, GrantNo, Incarnation, Limits, Page, PageNo, Version};
use std::alloc::{AllocError, Global};
use std::marker::Model;
use std::mem;

/// Frames in the order in which they are to be sent, and spare pages for the copies that they
/// carry. Only `reserve` takes memory: it is called before a step, which then can't be refused.
pub struct Outbox {
    frames: Vec<Frame>,
    spare: Vec<Page>,
    page_size: usize,
}

// By hand: see docs/PROVING.md, "Drops".
impl Drop for Outbox {
    fn drop(self) {
        let Outbox {
            frames: _,
            spare: _,
            page_size: _,
        } = self;
    }
}

impl Model for Outbox {
    ghost use Rattle.std.specs.Prelude.{◌≡◌, length};
    ghost use Rattle.std.specs.List.{All};
    ghost use Rattle.std.specs.Vec.{vec_capacity};
    ghost use Rattle.cb_outbox.specs.Messages.{messages_of};
    ghost use Rattle.cb_outbox.specs.Saying.{OutboxState};

    ghost Value = { OutboxState };

    ghost view = { λ o. record {
      sent = messages_of o.frames.items;
      room = vec_capacity o.frames;
      spare = length o.spare.items;
      page_size = o.page_size;
    } };

    ghost invariant = { λ o. All (λ page. length page ≡ o.page_size) o.spare.items };
}

impl Outbox {
    /// Nothing to be sent, and no room. It takes no memory.
    pub fn new(alloc: Global, limits: &Limits) -> Outbox
        ensures sent { result.sent ≡ [] }
        ensures room { result.room ≡ 0 }
        ensures spare { result.spare ≡ 0 }
        ensures page_size { result.page_size ≡ limits.now.page_size }
    {
        Outbox {
            frames: Vec::new(alloc),
            spare: Vec::new(alloc),
            page_size: limits.page_size(),
        }
    }

    /// Makes room for so many more frames, and for no more, and sees to at least so many spare
    /// pages. Spare pages that no step used are there the next time, so only the lacking ones are
    /// made. There are never more than the most that were asked for at once.
    ///
    /// `AllocError` only if memory was refused, so never if that room and these pages are there;
    /// what is sent is as before.
    pub fn reserve(&mut self, alloc: Global, frames: usize, copies: usize) -> Result<(), AllocError>
        ensures sent { self.new.sent ≡ self.old.sent }
        ensures page_size { self.new.page_size ≡ self.old.page_size }
        ensures room { OnOk result (length self.old.sent + frames ≤ self.new.room) }
        ensures spare { OnOk result (copies ≤ self.new.spare) }
        ensures kept { self.old.spare ≤ self.new.spare }
        ensures most { self.new.spare ≤ max self.old.spare copies }
        ensures most_room { self.new.room ≤ max self.old.room (length self.old.sent + frames) }
        ensures succeeds { length self.old.sent + frames ≤ self.old.room
            → copies ≤ self.old.spare → IsOk result }
    {
        self.frames.reserve_exact(frames)?;
        for _made in self.spare.len()..copies {
            self.spare.push(Page::zeros(alloc, self.page_size)?)?;
        }
        Ok(())
    }

    /// Sends a message without page bytes.
    pub fn say(&mut self, client: ClientNo, incarnation: Incarnation, body: ShortBody)
        requires { length self.old.sent < self.old.room }
        ensures { self.new ≡ record self.old {
          sent = self.old.sent
              ++ record { client = client; incarnation = incarnation; body = short_of body } ∷ [];
        } }
    {
        self.frames.push_reserved(Frame {
            client,
            incarnation,
            body: Body::Short(body),
        });
    }

    /// Sends a grant, with a copy of these bytes in a spare page.
    pub fn grant(
        &mut self,
        client: ClientNo,
        incarnation: Incarnation,
        page: PageNo,
        grant: GrantNo,
        version: Version,
        bytes: &[u8],
    )
        requires room { length self.old.sent < self.old.room }
        requires spare { 0 < self.old.spare }
        requires size { length bytes.now ≡ self.old.page_size }
        ensures { self.new ≡ record self.old {
          sent = self.old.sent ++ record {
            client = client;
            incarnation = incarnation;
            body = Granted page grant version bytes.now;
          } ∷ [];
          spare = self.old.spare - 1;
        } }
    {
        let Some(mut copy) = self.spare.pop() else {
            unreachable!();
        };
        copy.write(bytes);
        self.frames.push_reserved(Frame {
            client,
            incarnation,
            body: Body::Granted {
                page,
                grant,
                version,
                bytes: copy,
            },
        });
    }

    /// Hands out the frames, with their room, and leaves nothing.
    pub fn take(&mut self, alloc: Global) -> Vec<Frame>
        ensures frames { messages_of result.items ≡ self.old.sent }
        ensures room { vec_capacity result ≡ self.old.room }
        ensures left { self.new.sent ≡ [] }
        ensures no_room { self.new.room ≡ 0 }
        ensures spare { self.new.spare ≡ self.old.spare }
        ensures page_size { self.new.page_size ≡ self.old.page_size }
    {
        mem::replace(&mut self.frames, Vec::new(alloc))
    }
}
