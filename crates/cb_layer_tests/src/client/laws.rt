//! How a caller has what holds of every client, whatever was called and came before: by `arose` of
//! `Client::limits`, by the contract of the call that it made, and by the laws.

ghost use Rattle.std.specs.Prelude.{◌≡◌, List, true, IfSome};
ghost use Rattle.cb_client.specs.Laws.{SaysSo};
ghost use Rattle.cb_client_core.specs.ByTable.{limits_at};
ghost use Rattle.cb_client_core.specs.ClientState.{client_of};
ghost use Rattle.cb_outbox.specs.Messages.{messages_of};
ghost use Rattle.cb_protocol.specs.ClientAlone.{AnswersCallback, GivesBackOnce};
ghost use Rattle.cb_protocol.specs.Serial.{Operation};

use crate::client::cases::frame;
use cb_client::{Client, callbacks_are_answered, in_use_is_given_back};
use cb_frame::{Body, Frame, ShortBody};
use cb_page::{GrantNo, PageNo};
use cb_twoq::Chooser;
use std::alloc::Global;

/// What a client says to a Callback: one message, where the frame is for it and it is welcomed.
/// None where there is no such page, or memory is refused.
pub(crate) fn called<Q: Chooser>(
    alloc: Global,
    client: &mut Client<Q>,
    page: PageNo,
    grant: GrantNo,
) -> Option<Vec<Frame>>
    ensures { IfSome result (λ said. client.old.no ≡ 0 → client.old.incarnation ≡ 2
        → client.old.welcomed ≡ true → (operations : List Operation)
        → SaysSo (λ before after bodies. AnswersCallback before after bodies page grant)
        client.old client.new (messages_of said.items) operations) }
{
    callbacks_are_answered();
    let frame = frame(Body::Short(ShortBody::Callback { page, grant }));
    if !frame.fits(client.limits()) {
        return None;
    }
    match client.take(alloc, &frame) {
        Ok(said) => Some(said),
        Err(_) => None,
    }
}

/// What a client answers InUse it gives back once, as its transaction ends.
pub(crate) fn gives_back_once<Q: Chooser>(client: &Client<Q>)
    ensures { (operations : List Operation)
        × GivesBackOnce (limits_at client.now) (client_of client.now operations) }
{
    in_use_is_given_back();
    let _known = client.limits();
}
