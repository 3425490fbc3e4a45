//! The text of each fault's number.
ghost use Rattle.std.specs.Prelude.{◌≡◌};
ghost use Rattle.cb_handle.specs.Faults.{call_text, fault_text, frame_text, handle_text};
ghost use Rattle.cb_handle.specs.Faults.{limit_text};

/// What the number that a call returned means, in English: the text of the fault with that
/// `HandleRefusal::number`, or `done` for 0. For any other number it is `no such fault`.
#[tactic(auto, unfolding(crate::specs::Faults::fault_text))]
pub fn fault_text(number: u32) -> &'static str
    ensures { result.now ≡ fault_text number }
{
    if number < 257 {
        call_text(number)
    } else if number < 513 {
        frame_text(number)
    } else if number < 769 {
        limit_text(number)
    } else {
        handle_text(number)
    }
}

#[tactic(auto, unfolding(crate::specs::Faults::call_text))]
fn call_text(number: u32) -> &'static str
    ensures { result.now ≡ call_text number }
{
    match number {
        0 => "done",
        1 => "not welcome: the server's Welcome has not come",
        2 => "no transaction is open",
        3 => "a transaction is open already",
        4 => "the transaction is committing",
        5 => "waiting: an ask is out",
        6 => "there is no such page",
        7 => "the transaction has not read the page",
        8 => "the page's bytes are not here: read it again",
        9 => "the client may not write the page",
        10 => "the bytes are not as long as a page",
        11 => "the pool is full of pages that may not leave it",
        12 => "no number is left",
        13 => "memory was refused",
        _ => "no such fault",
    }
}

#[tactic(auto, unfolding(crate::specs::Faults::frame_text))]
fn frame_text(number: u32) -> &'static str
    ensures { result.now ≡ frame_text number }
{
    match number {
        257 => "short: the frame isn't whole yet",
        258 => "a frame has no such version",
        259 => "a frame has no such kind",
        260 => "a frame of this kind has no such length",
        261 => "a number in the frame is out of range",
        262 => "the pages of a commit don't rise",
        263 => "memory was refused for the frame",
        _ => "no such fault",
    }
}

#[tactic(auto, unfolding(crate::specs::Faults::limit_text))]
fn limit_text(number: u32) -> &'static str
    ensures { result.now ≡ limit_text number }
{
    match number {
        513 => "clients: 1 to 32",
        514 => "pages: 1 to 4,096",
        515 => "page size: 16 to 65,536 by steps of 16",
        516 => "slots: 2 to 1,024",
        517 => "kin: 1 to one less than the slots",
        518 => "kout: 1 to 4,096",
        _ => "no such fault",
    }
}

#[tactic(auto, unfolding(crate::specs::Faults::handle_text))]
fn handle_text(number: u32) -> &'static str
    ensures { result.now ≡ handle_text number }
{
    match number {
        769 => "the handle is empty, or what it holds has no such call",
        770 => "what was said before is to be fetched first",
        771 => "there is nothing",
        772 => "the room hasn't the length that is needed",
        773 => "a number is out of range",
        774 => "the handle holds an object already",
        _ => "no such fault",
    }
}
