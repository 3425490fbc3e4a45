//! A client commits.
ghost use Rattle.std.specs.Prelude.{◌≡◌, ◌<◌, ◌++◌, ◌∷◌, [], true, IfErr, IfOk, OnOk, length};
ghost use Rattle.std.specs.List.{All};
ghost use Rattle.cb_hands.specs.Hands.{without_permissions};
ghost use Rattle.cb_hands.specs.OwnHand.{all_restamped};
ghost use Rattle.cb_hands.specs.Joined.{Follow, IsHeld};
ghost use Rattle.cb_station.specs.Calls.{Committed};
ghost use Rattle.cb_station.specs.Commits.{AllowsCommit, RefusesCommit, answer_of, is_live, txn_of};
ghost use Rattle.cb_station.specs.Commits.{writes_of};
ghost use Rattle.cb_station.specs.Moves.{IsEntryOf, IsKnown, is_commit};
ghost use Rattle.cb_station.specs.Stations.{server_of};

use crate::office_fault::OfficeFault;
use crate::reading::{holds_all, may_write_all, pages_of, reads_of};
use crate::station::Station;
use cb_commit::Past;
use cb_frame::{Body, Frame};
use cb_hands::{Entry, Hand, JoinedHands};
use cb_links::Standing;
use cb_page::{ClientNo, CommitNo, PageNo, PageSet, TxnNo, Version};
use std::alloc::{AllocError, Global};

impl Station {
    /// Commits the transaction, which read these pages. One entry is appended to the history: the
    /// transaction, these pages at the versions of the grants held, and the pages that it writes.
    /// The grants of the written pages get the new version, and the permissions to write end.
    ///
    /// `Foreign` exactly if the frame isn't a Commit of the hand's or the hand isn't the one
    /// stored. Otherwise `NotHeld` exactly if a page read has no grant, or the hand doesn't show a
    /// page written as this transaction's to write, by the frame's grant. Otherwise `NotLive`
    /// exactly if the transaction has ended or is doomed. Otherwise `Exhausted` exactly if no
    /// commit number is left. Otherwise `Memory`, only if a growth was refused.
    pub fn commit(
        &mut self,
        alloc: Global,
        frame: &Frame,
        reads: &PageSet,
        hand: &mut Hand,
    ) -> Result<CommitNo, OfficeFault>
        ensures { Committed self.old frame.now reads.now hand.old result self.new hand.new }
    {
        let known = self.knows(hand);
        let number = self.number_for(frame, reads, hand, known)?;
        let entry = entry_of(alloc, &mut self.history, hand, frame, reads)?;
        // A number is left: it is refused only where memory is.
        if self.dispatcher.take(alloc, frame).is_err() {
            return Err(OfficeFault::Memory);
        }
        note(&mut self.history, &mut self.hands, hand, number, entry);
        self.flags.news = true;
        Ok(number)
    }

    /// As `commit`, but the frame is handed over: the pages of a commit that is taken are moved,
    /// not copied. The very frame comes back with each fault. It is told what [`Station::knows`]
    /// answers of the hand, which isn't compared then.
    pub fn commit_if_known(
        &mut self,
        alloc: Global,
        frame: Frame,
        reads: &PageSet,
        hand: &mut Hand,
        known: bool,
    ) -> Result<CommitNo, (OfficeFault, Frame)>
        requires known { IsKnown known self.old hand.old }
        ensures committed { Committed self.old frame reads.now hand.old (answer_of result)
            self.new hand.new }
        ensures back { IfErr result (λ refused. refused.1 ≡ frame) }
    {
        let number = match self.number_for(&frame, reads, hand, known) {
            Ok(number) => number,
            Err(fault) => return Err((fault, frame)),
        };
        let Ok(entry) = entry_of(alloc, &mut self.history, hand, &frame, reads) else {
            return Err((OfficeFault::Memory, frame));
        };
        let (_, frame) = match self.dispatcher.take_owned(alloc, frame) {
            Ok(()) => {
                note(&mut self.history, &mut self.hands, hand, number, entry);
                self.flags.news = true;
                return Ok(number);
            }
            Err(refused) => refused,
        };
        // A number is left: it is refused only where memory is.
        Err((OfficeFault::Memory, frame))
    }

    /// The number that the commit gets, or why there is none: the first reason that stands.
    fn number_for(
        &self,
        frame: &Frame,
        reads: &PageSet,
        hand: &Hand,
        known: bool,
    ) -> Result<CommitNo, OfficeFault>
        requires known { IsKnown known self.now hand.now }
        ensures refused { IfErr result (RefusesCommit self.now frame.now hand.now reads.now) }
        ensures allowed { IfOk result (AllowsCommit self.now frame.now hand.now reads.now) }
    {
        let Body::Commit { txn, writes } = &frame.body else {
            return Err(OfficeFault::Foreign);
        };
        if !self.is_own(frame, hand, known) {
            return Err(OfficeFault::Foreign);
        }
        if !holds_all(hand, reads) || !may_write_all(hand, *txn, writes.as_slice()) {
            return Err(OfficeFault::NotHeld);
        }
        if !self.is_live(hand.client(), *txn) {
            return Err(OfficeFault::NotLive);
        }
        let Some(number) = self.dispatcher.server().state().commits.next_number() else {
            return Err(OfficeFault::Exhausted);
        };
        Ok(number)
    }

    /// Whether the transaction hasn't ended and isn't doomed.
    fn is_live(&self, client: ClientNo, txn: TxnNo) -> bool
        requires { client < self.now.dispatcher.server.limits.clients }
        ensures { result ≡ is_live (server_of self.now) client txn }
    {
        match self.dispatcher.server().state().standing(client, txn) {
            Standing::Live | Standing::Later => true,
            Standing::Ended | Standing::Doomed => false,
        }
    }
}

/// The entry of a commit whose transaction read these pages, with room for it behind the history.
fn entry_of(
    alloc: Global,
    history: &mut Past<Entry>,
    hand: &Hand,
    frame: &Frame,
    reads: &PageSet,
) -> Result<Entry, AllocError>
    requires { is_commit frame.now.body ≡ true }
    ensures entry { IfOk result
        (IsEntryOf hand.now (txn_of frame.now) (writes_of frame.now) reads.now) }
    ensures same { history.new.items ≡ history.old.items }
    ensures forgotten { history.new.forgotten ≡ history.old.forgotten }
    ensures room { OnOk result (0 < history.new.room) }
{
    let Body::Commit { txn, writes } = &frame.body else {
        unreachable!()
    };
    history.reserve_one()?;
    Ok(Entry {
        client: hand.client(),
        incarnation: hand.incarnation(),
        txn: *txn,
        reads: reads_of(alloc, hand, reads)?,
        writes: pages_of(alloc, writes.as_slice())?,
    })
}

/// A commit that was taken is noted: its entry is put behind the history, what the hand holds of
/// the pages that it wrote is of its version, and the hand's permissions to write end.
fn note(
    history: &mut Past<Entry>,
    hands: &mut JoinedHands,
    hand: &mut Hand,
    number: CommitNo,
    entry: Entry,
)
    requires room { 0 < history.old.room }
    requires held { IsHeld hands.old hand.old }
    requires pages { All (λ page. page < length hand.old.held) entry.writes.items }
    ensures history { history.new.items ≡ history.old.items ++ entry ∷ [] }
    ensures forgotten { history.new.forgotten ≡ history.old.forgotten }
    ensures hand { hand.new
        ≡ without_permissions (all_restamped hand.old entry.writes.items number) }
    ensures stored { Follow hands.old hands.new hand.old hand.new }
{
    restamp(hands, hand, entry.writes.as_slice(), number.version());
    hands.end_permissions(hand);
    history.push_reserved(entry);
}

/// What the hand holds of these pages is of that version.
fn restamp(hands: &mut JoinedHands, hand: &mut Hand, pages: &[PageNo], version: Version)
    requires held { IsHeld hands.old hand.old }
    requires pages { All (λ page. page < length hand.old.held) pages.now }
    ensures hand { hand.new ≡ all_restamped hand.old pages.now version }
    ensures stored { Follow hands.old hands.new hand.old hand.new }
{
    for page in pages {
        hands.restamp(hand, *page, version);
    }
}
