//! Schedules and the worlds that play them.
//!
//! A schedule is a list of [`Event`]s: calls of clients, packets that are taken in any order, lost
//! or repeated, restarts, and what is left to the server. [`read_schedule`] reads one from a text,
//! and [`draw`] draws one by a seed, in a world that plays it as it comes. A [`World`] is a server
//! with its clients and their packets. It plays events one by one, each with an [`Answer`], or a
//! whole list, which gives a [`Transcript`]; [`check_serial`] tells of any transcript whether its
//! commits are a serial history. [`Lives`] is such a world whose server restarts too: it plays
//! [`LivesEvent`]s, which [`read_lives`] reads, and gives a [`LivesTranscript`].
//!
//! In contracts a running [`World`] is a world of the protocol that is reached from its opening
//! store, whatever events are played. The protocol's whole promise therefore holds of it at each
//! moment. In [`Lives`] what the promise says of copies holds among the clients of the present
//! life, and the commits that count are serial over all lives.
//!
//! A world's clients are [`WorldClients`], each at its present incarnation: each call, packet and
//! restart changes them as the protocol's step does. Its [`Packets`] are every packet that was ever
//! sent, as bytes. A packet is sent by encoding a frame, and taken by decoding the bytes, any
//! number of times and in any order. Taking a packet doesn't remove it.
//!
//! The other names that a caller needs are exported too: what a schedule and a transcript are made
//! of (`cb_transcript`), and the limits, the store and the chooser of which a world is made. So are
//! the laws of worlds: [`copies_are_backed_by_rows`], [`written_pages_are_alone`],
//! [`readable_copies_agree`], [`writer_is_alone`] and [`committed_transactions_are_serial`]. The
//! passes of their proof are laws, too: [`held_grants_have_rows`], [`writers_have_permission`],
//! [`held_pages_are_the_stores`] and [`commits_on_their_way_keep_their_rows`].
//!
//! An example, which is compiled and run as the test `example` of `cb_layer_tests`:
//!
//! ```
//! let limits = Limits::new(1, 8, 16, 4, 1, 2).ok()?;
//! let store = Store::zeros(alloc, &limits).ok()?;
//! let events = read_schedule(alloc, &limits, SCHEDULE.as_bytes()).ok()?;
//! let world = World::<TwoQ>::new(alloc, &limits, store).ok()?;
//! let told = world.play(events.as_slice()).ok()?;
//! let verdict = check_serial(alloc, &told).ok()?;
//! Some(told.commits().len() == 1 && verdict == Verdict::Serial)
//! ```
#![tactic(auto)]

mod calling;
mod laws;
mod life;
mod lives;
mod net;
mod packet;
mod packets;
mod reply;
mod schedule;
mod world;
mod world_clients;

pub use cb_commit::Store;
pub use cb_laws::written_pages_are_alone;
pub use cb_page::{Incarnation, Limits};
pub use cb_protocol::passes::{
    commits_on_their_way_keep_their_rows, held_grants_have_rows, held_pages_are_the_stores,
    writers_have_permission,
};
pub use cb_protocol::{
    committed_transactions_are_serial, copies_are_backed_by_rows, readable_copies_agree,
    writer_is_alone,
};
pub use cb_transcript::{
    Answer, AnswerWord, Call, Event, LivesEntry, LivesEvent, LivesTranscript, Refusal,
    RestartAnswer, RestartRefusal, ScheduleFault, SentPacket, SentPackets, TransactionName,
    Transcript, TranscriptEntry, Verdict, check_serial, read_lives, read_schedule,
};
pub use cb_twoq::TwoQ;
pub use laws::worlds_are_serial;
pub use lives::{Lives, LivesFault};
pub use packets::Packets;
pub use reply::Reply;
pub use schedule::draw;
pub use world::{PlayFault, World};
pub use world_clients::WorldClients;
