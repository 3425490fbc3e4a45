//! The queues of all pages.
ghost use Rattle.std.specs.Prelude.{◌≡◌, ◌≢◌, ◌⊎◌, ℕ, ◌+◌, ◌<◌, ◌≤◌, [], length, None, Some};
ghost use Rattle.std.specs.Prelude.{slice_get};
ghost use Rattle.std.specs.Prelude.{slice_index_or, IfOk, IfSome, OnErr, OnOk, MatchOption};
ghost use Rattle.std.specs.Option.{is_some, option_map};
ghost use Rattle.cb_protocol.specs.Basics.{is_exactly};
ghost use Rattle.cb_protocol.specs.Deadlock.{OneAsk, ask_count};
ghost use Rattle.cb_protocol.specs.Server.{ForgetTransaction, Server, after_server_step};
ghost use Rattle.cb_protocol.specs.ServerMessages.{has_waiting_ask, read_asks_below};
ghost use Rattle.cb_asks.specs.Asks.{CallsBack, Enters, HasPage, HasQueues, Leaves, Removes};
ghost use Rattle.cb_asks.specs.Asks.{Reserves, SendsDowngrade, queue_at, queue_of, reads_of_others};
ghost use Rattle.cb_asks.specs.Asks.{asks_below, room_at};
ghost use Rattle.cb_asks.specs.Places.{IsUpTo};
ghost use Rattle.cb_asks.specs.Queues.{ask_by, asked, no_queue};
ghost use Rattle.cb_asks.specs.Sums.{one_if};

use crate::ask::Ask;
use crate::places::Places;
use crate::queue::Queue;
use crate::spare::Spare;
use cb_page::{ClientNo, ClientSet, GrantNo, Limits, PageNo, TxnNo};
use std::alloc::{AllocError, Global};
use std::marker::Model;

/// The queues of asks of all pages. A client has at most one ask over all of them.
pub struct Asks {
    /// By page.
    queues: Vec<Queue>,
    places: Places,
    /// The maps that no queue has.
    spare: Spare,
}

// By hand: see docs/PROVING.md, "Drops".
impl Drop for Asks {
    fn drop(self) {
        let Asks {
            queues: _,
            places: _,
            spare: _,
        } = self;
    }
}

impl Model for Asks {
    ghost use Rattle.cb_asks.specs.Asks.{AsksState, IsAsks};
    ghost use Rattle.cb_asks.specs.Maps.{HasMaps};

    ghost Value = { AsksState };

    ghost view = { λ a. record { queues = a.queues.items; places = a.places } };

    ghost invariant = { λ a. IsAsks (record { queues = a.queues.items; places = a.places })
        × HasMaps a.queues.items a.spare };
}

impl Asks {
    /// Nobody asks.
    ///
    /// `AllocError` only if memory was refused.
    pub fn new(alloc: Global, limits: &Limits) -> Result<Asks, AllocError>
        ensures empty { IfOk result (λ asks. (page : ℕ) → queue_at asks page ≡ []) }
        ensures pages { IfOk result (λ asks. length asks.queues ≡ limits.now.pages) }
    {
        Ok(Asks {
            queues: empty_queues(alloc, limits.pages() as usize)?,
            places: Places::new(),
            spare: Spare::new(alloc)?,
        })
    }

    /// The queue of a page.
    pub fn queue(&self, page: PageNo) -> &Queue
        requires { HasPage self.now page }
        ensures { result.now ≡ queue_of self.now page }
    {
        &self.queues[page.index()]
    }

    /// The page at which the client's ask waits.
    pub fn waits_at(&self, client: ClientNo) -> Option<PageNo>
        ensures place { (page : ℕ) → ask_count client (queue_at self.now page)
            ≡ one_if (is_exactly result page) }
        ensures page { IfSome result (HasPage self.now) }
        ensures waits { (server : Server) → HasQueues server self.now
            → has_waiting_ask server client server.pages ≡ is_some result }
        ensures one_ask { OneAsk (queue_at self.now) }
    {
        self.places.get(client)
    }

    /// The least page at or above `from` for which an ask waits. Calls with one more than the last
    /// answer walk through these pages in rising order. It costs as many steps as asks wait.
    pub fn next_page(&self, from: usize) -> Option<PageNo>
        ensures { MatchOption result
            ((page : ℕ) → from ≤ page → queue_at self.now page ≡ [])
            (λ page. (from ≤ page) × HasPage self.now page × (queue_at self.now page ≢ [])
            × ((other : ℕ) → from ≤ other → other < page → queue_at self.now other ≡ [])) }
    {
        let mut next = None;
        let mut followed = ClientSet::empty();
        while let Some(client) = self.places.waiting().difference(followed).first() {
            followed.insert(client);
            next = nearer(from, self.places.get(client), next);
        }
        next
    }

    /// How many asks wait. It costs as many steps as that.
    pub fn waiting_asks(&self) -> usize
        ensures asks { (server : Server) → HasQueues server self.now
            → asks_below server server.pages ≡ result }
        ensures few { result ≤ 32 }
    {
        let waiting = self.places.waiting();
        let mut asks = 0;
        let mut from = 0;
        while let Some(client) = waiting.next(from) {
            asks += 1;
            from = client.index() + 1;
        }
        asks
    }

    /// How many asks to read wait.
    pub fn read_asks(&self) -> usize
        ensures reads { (server : Server) → HasQueues server self.now
            → read_asks_below server server.pages ≡ result }
        ensures few { result ≤ 32 }
    {
        self.places.reads()
    }

    /// How many asks to read would wait once the client's transaction is forgotten, and its ask is
    /// gone. It costs a look at that ask.
    pub fn read_asks_of_others(&self, client: ClientNo) -> usize
        ensures { (server : Server) → HasQueues server self.now
            → read_asks_below (after_server_step server (ForgetTransaction client)) server.pages
            ≡ result }
    {
        self.places.reads() - self.reads_of(client)
    }

    /// How many of the asks to read are the client's.
    fn reads_of(&self, client: ClientNo) -> usize
        ensures { reads_of_others self.now client + result ≡ self.now.places.reads }
    {
        let Some(page) = self.places.get(client) else {
            return 0;
        };
        let Some(ask) = self.queues[page.index()].ask_of(client) else {
            unreachable!();
        };
        if ask.write_grant.is_none() { 1 } else { 0 }
    }

    /// Makes room for one more ask at the page. Whether it is refused or not, nobody asks more or
    /// less.
    ///
    /// `AllocError` only if memory was refused, so never if there is room, which there is if nobody
    /// waits for the page.
    pub fn reserve(&mut self, page: PageNo) -> Result<(), AllocError>
        requires { HasPage self.old page }
        ensures reserves { Reserves self.old self.new }
        ensures ok { OnOk result (0 < room_at self.new page) }
        ensures err { OnErr result (queue_at self.old page ≢ []) }
        ensures full { OnErr result (room_at self.old page ≡ 0) }
    {
        self.queues[page.index()].reserve()
    }

    /// An ask of the client enters at the end of the page's queue. It is to write by the grant of a
    /// copy, or else to read.
    pub fn enter(&mut self, page: PageNo, client: ClientNo, write_grant: Option<GrantNo>)
        requires page { HasPage self.old page }
        requires room { 0 < room_at self.old page }
        requires new { (other : ℕ) → ask_count client (queue_at self.old other) ≡ 0 }
        ensures { Enters self.old page client write_grant self.new }
    {
        self.places.enter(client, page, write_grant.is_none());
        self.queues[page.index()].enter(&mut self.spare, client, write_grant);
    }

    /// The first ask for the page leaves.
    pub fn leave(&mut self, page: PageNo) -> Ask
        requires page { HasPage self.old page }
        requires some { queue_at self.old page ≢ [] }
        ensures ask { option_map asked (slice_get (queue_at self.old page) 0) ≡ Some result }
        ensures leaves { Leaves self.old page self.new }
    {
        let Some(first) = self.queues[page.index()].leave(&mut self.spare) else {
            unreachable!();
        };
        self.places.leave(first.client, first.write_grant.is_none());
        Ask::new(first.client, first.write_grant)
    }

    /// Removes the client's ask, wherever it waits. It costs a walk over that page's queue alone.
    pub fn remove(&mut self, client: ClientNo) -> Option<Ask>
        ensures ask { (page : ℕ) → ask_count client (queue_at self.old page) ≢ 0
            → result ≡ option_map asked (ask_by client (queue_at self.old page)) }
        ensures none { ((page : ℕ) → ask_count client (queue_at self.old page) ≡ 0)
            → result ≡ None }
        ensures removes { Removes self.old client self.new }
    {
        let page = self.places.get(client)?;
        let ask = self.queues[page.index()].remove(&mut self.spare, client)?;
        self.places.leave(client, ask.write_grant.is_none());
        Some(Ask::new(client, ask.write_grant))
    }

    /// The Callbacks for the first ask for the page were sent.
    pub fn mark_called_back(&mut self, page: PageNo)
        requires { HasPage self.old page }
        ensures { CallsBack self.old page self.new }
    {
        self.queues[page.index()].mark_called_back();
    }

    /// A Downgrade of the permission with that tag was sent for the first ask for the page.
    pub fn mark_downgrade_sent(&mut self, page: PageNo, tag: TxnNo)
        requires { HasPage self.old page }
        ensures { SendsDowngrade self.old page tag self.new }
    {
        self.queues[page.index()].mark_downgrade_sent(tag);
    }
}

/// That many empty queues.
fn empty_queues(alloc: Global, pages: usize) -> Result<Vec<Queue>, AllocError>
    ensures { IfOk result (λ queues. (length queues.items ≡ pages)
        × ((page : ℕ) → (slice_index_or queues.items page no_queue).asks ≡ [])) }
{
    let mut queues = Vec::with_capacity(alloc, pages)?;
    for _ in 0..pages {
        queues.push(Queue::new())?;
    }
    Ok(queues)
}

/// The nearer of a client's place and the best so far; a place before `from` doesn't count.
fn nearer(from: usize, place: Option<PageNo>, best: Option<PageNo>) -> Option<PageNo>
    ensures one { (result ≡ best) ⊎ ((result ≡ place) × IfSome place (λ page. from ≤ page)) }
    ensures best { (page : ℕ) → IsUpTo best page → IsUpTo result page }
    ensures place { (page : ℕ) → place ≡ Some page → from ≤ page → IsUpTo result page }
{
    let Some(page) = place else {
        return best;
    };
    if page.index() < from {
        return best;
    }
    let Some(least) = best else {
        return place;
    };
    if least.index() <= page.index() {
        best
    } else {
        place
    }
}
