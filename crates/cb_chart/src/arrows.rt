//! Which event sent a packet, and which took it.
ghost use Rattle.std.specs.Prelude.{◌≡◌, ◌++◌, map, OnOk};
ghost use Rattle.std.specs.Option.{option_to_list};
ghost use Rattle.cb_chart.specs.Arrows.{arrow_to, packet_taken, sending_of, sent_by};

use cb_transcript::{AnswerWord, Event, SentPacket};
use std::alloc::AllocError;

/// A packet that was sent by an event.
#[derive(Clone, Copy, Debug, PartialEq, Eq)]
pub struct Sending {
    pub packet: SentPacket,
    pub event: u16,
}

/// A packet that was sent by one event and taken by another.
#[derive(Clone, Copy, Debug, PartialEq, Eq)]
pub struct Arrow {
    pub packet: SentPacket,
    pub sent: u16,
    pub taken: u16,
}

/// Appends the packets that an event sent. `AllocError` only if memory was refused.
pub(crate) fn add_sendings(
    sendings: &mut Vec<Sending>,
    sent: &[SentPacket],
    event: u16,
) -> Result<(), AllocError>
    ensures { OnOk result
        (sendings.new.items ≡ sendings.old.items ++ map (sent_by event) sent.now) }
{
    for packet in sent {
        sendings.push(Sending {
            packet: *packet,
            event,
        })?;
    }
    Ok(())
}

/// Puts the arrow that ends at an event behind the others, if the event took a packet. `AllocError`
/// only if memory was refused.
pub(crate) fn add_arrow(
    arrows: &mut Vec<Arrow>,
    sendings: &[Sending],
    made: &Event,
    answered: &AnswerWord,
    event: u16,
) -> Result<(), AllocError>
    ensures { OnOk result (arrows.new.items ≡ arrows.old.items
        ++ option_to_list (arrow_to sendings.now made.now answered.now event)) }
{
    match arrow_to(sendings, made, answered, event) {
        Some(arrow) => {
            arrows.push(arrow)?;
            Ok(())
        }
        None => Ok(()),
    }
}

/// The arrow that ends at an event with this answer, if it took a packet.
fn arrow_to(sendings: &[Sending], made: &Event, answered: &AnswerWord, event: u16) -> Option<Arrow>
    ensures { result ≡ arrow_to sendings.now made.now answered.now event }
{
    let number = packet_taken(made, answered)?;
    let sending = sending_of(sendings, number)?;
    Some(Arrow {
        packet: sending.packet,
        sent: sending.event,
        taken: event,
    })
}

/// The number of the packet that an event took, if it took one.
fn packet_taken(made: &Event, answered: &AnswerWord) -> Option<u64>
    ensures { result ≡ packet_taken made.now answered.now }
{
    match made {
        Event::Take { packet } => {
            if matches!(answered, AnswerWord::Taken) {
                Some(*packet)
            } else {
                None
            }
        }
        _ => None,
    }
}

/// The sending of the packet of that number.
fn sending_of(sendings: &[Sending], number: u64) -> Option<Sending>
    ensures { result ≡ sending_of sendings.now number }
{
    for sending in sendings {
        if sending.packet.number == number {
            return Some(*sending);
        }
    }
    None
}
