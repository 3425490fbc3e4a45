//! What may be lost is sent again.
ghost use Rattle.std.specs.Prelude.{◌≡◌, ◌+◌, ◌<◌, ◌≤◌, ◌++◌, List, option_to_list, IfErr, IfOk};
ghost use Rattle.std.specs.Prelude.{IfSome, IsOk, [], ℕ, false, length, true, unwrap_or};
ghost use Rattle.std.specs.List.{AllByRecursion};
ghost use Rattle.std.specs.Option.{option_map};
ghost use Rattle.std.specs.Vec.{vec_capacity, vec_len};
ghost use Rattle.cb_client.specs.ByTable.{Calls, as_before, limits_at, messages_from};
ghost use Rattle.cb_client.specs.CallAnswers.{short_message};
ghost use Rattle.cb_client_core.specs.ClientState.{client_of, is_gone};
ghost use Rattle.cb_protocol.specs.Messages.{Drop as DropBody};
ghost use Rattle.cb_client.specs.declared.client_fault.ClientFault.TheVariants.{Memory};
ghost use Rattle.cb_frame.specs.Grammar.{Fits};
ghost use Rattle.cb_outbox.specs.Messages.{message_of, messages_of};
ghost use Rattle.cb_protocol.specs.Answers.{AnsweredOk};
ghost use Rattle.cb_protocol.specs.Client.{bodies_said};
ghost use Rattle.cb_protocol.specs.ClientCalls.{CallAgain, client_again, commit_again, say_drop};
ghost use Rattle.cb_page.specs.Flags.{has};
ghost use Rattle.cb_protocol.specs.Serial.{Operation};

use crate::client::Client;
use crate::client_fault::ClientFault;
use cb_client_core::{Outcome, Stage};
use cb_frame::{Frame, ShortBody, ShortFrame};
use cb_twoq::Chooser;
use std::alloc::{AllocError, Global};

impl<Q: Chooser> Client<Q> {
    /// Resends what may be lost. Until the Welcome came that is Hello. Later it is the Drop, if the
    /// last transaction was dropped or aborted, and the ask and the Commit, if they have no answer
    /// yet.
    ///
    /// `Memory` only if memory for these was refused. It takes no more than they need, so none if
    /// there is nothing to resend.
    pub fn again(&self, alloc: Global) -> Result<Vec<Frame>, ClientFault>
        ensures by_table { IfOk result (λ frames. Calls self.now CallAgain AnsweredOk
            (messages_of frames.items) as_before self.now) }
        ensures memory { IfErr result (λ fault. fault ≡ Memory) }
        ensures fits { IfOk result (λ frames.
            AllByRecursion (Fits self.now.copies.limits) frames.items) }
        ensures room { IfOk result (λ frames. vec_capacity frames ≡ vec_len frames) }
        ensures none { bodies_said (client_again (limits_at self.now) (client_of self.now [])) ≡ []
            → IsOk result }
    {
        if !self.core.welcomed {
            let mut frames = Vec::with_capacity(alloc, 1)?;
            frames.push_reserved(self.hello());
            return Ok(frames);
        }
        let commit = self.commit_again(alloc)?;
        let dropped = self.drop_again();
        let ask = self.ask();
        let count = count_of(&dropped) + count_of(&ask) + count_of(&commit);
        let mut frames = Vec::with_capacity(alloc, count)?;
        push_short(&mut frames, dropped);
        push_short(&mut frames, ask);
        push(&mut frames, commit);
        Ok(frames)
    }

    /// The Drop of the last transaction, if that one was dropped or aborted.
    fn drop_again(&self) -> Option<ShortFrame>
        ensures { (operations : List Operation)
            → messages_from self.now (bodies_said (say_drop (client_of self.now operations)
            (client_of self.now operations).last_outcome))
            ≡ option_to_list (option_map short_message result) }
    {
        match self.core.last {
            None => None,
            Some(last) => match last {
                Outcome::Committed(_) => None,
                Outcome::Dropped => Some(self.last_drop()),
                Outcome::Aborted => Some(self.last_drop()),
            },
        }
    }

    /// The Drop of the last transaction that was dropped or aborted.
    fn last_drop(&self) -> ShortFrame
        requires { is_gone self.now.last ≡ true }
        ensures { short_message result ≡ record {
          client = self.now.no;
          incarnation = self.now.incarnation;
          body = DropBody (unwrap_or self.now.dropped 0);
        } }
    {
        let Some(txn) = self.core.dropped else {
            unreachable!()
        };
        self.core.say(ShortBody::Drop { txn })
    }

    /// The Commit that `finish` returned, if a transaction is committing.
    ///
    /// `AllocError` only if memory for its pages was refused.
    pub fn commit_again(&self, alloc: Global) -> Result<Option<Frame>, AllocError>
        ensures by_table { IfOk result (λ commit. (operations : List Operation)
            → messages_from self.now
            (bodies_said (commit_again (limits_at self.now) (client_of self.now operations)))
            ≡ option_to_list (option_map message_of commit)) }
        ensures fits { IfOk result (λ commit. IfSome commit (Fits self.now.copies.limits)) }
        ensures none { bodies_said (commit_again (limits_at self.now) (client_of self.now [])) ≡ []
            → IsOk result }
        ensures nothing { ((page : ℕ) → has self.now.copies.wrote page ≡ false) → IsOk result }
    {
        match self.core.stage {
            Stage::Idle | Stage::Open => Ok(None),
            Stage::Committing => Ok(Some(self.commit_frame(alloc)?)),
        }
    }
}

/// How many there are: one or none.
fn count_of<T>(frame: &Option<T>) -> usize
    ensures count { result ≡ length (option_to_list frame.now) }
    ensures most { result ≤ 1 }
{
    match frame {
        Some(_) => 1,
        None => 0,
    }
}

/// Puts a frame behind the others, if there is one.
fn push(frames: &mut Vec<Frame>, frame: Option<Frame>)
    requires { vec_len frames.old + length (option_to_list frame) ≤ vec_capacity frames.old }
    ensures messages { messages_of frames.new.items
        ≡ messages_of frames.old.items ++ option_to_list (option_map message_of frame) }
    ensures len { vec_len frames.new ≡ vec_len frames.old + length (option_to_list frame) }
    ensures capacity { vec_capacity frames.new ≡ vec_capacity frames.old }
{
    if let Some(frame) = frame {
        frames.push_reserved(frame);
    }
}

/// The same of a frame without page bytes.
fn push_short(frames: &mut Vec<Frame>, frame: Option<ShortFrame>)
    requires { vec_len frames.old + length (option_to_list frame) ≤ vec_capacity frames.old }
    ensures messages { messages_of frames.new.items
        ≡ messages_of frames.old.items ++ option_to_list (option_map short_message frame) }
    ensures len { vec_len frames.new ≡ vec_len frames.old + length (option_to_list frame) }
    ensures capacity { vec_capacity frames.new ≡ vec_capacity frames.old }
{
    if let Some(frame) = frame {
        frames.push_reserved(Frame::from(frame));
    }
}
