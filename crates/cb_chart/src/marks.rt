//! Which transactions ended.

use cb_client::{Client, ClientStatus, Outcome};
use cb_page::{ClientNo, ClientSet};
use cb_schedule::World;
use cb_twoq::Chooser;

/// How a client's transaction ended.
#[derive(Clone, Copy, Debug, PartialEq, Eq)]
pub struct TransactionEnd {
    pub client: ClientNo,
    pub outcome: Outcome,
}

/// What an event did to transactions.
#[derive(Clone, Copy, Debug, PartialEq, Eq)]
pub struct Mark {
    /// How many commits the server had made after it.
    pub commits: usize,
    /// The transaction that its client took as ended by it.
    pub ended: Option<TransactionEnd>,
}

/// The clients of the world that have a transaction.
pub(crate) fn at_work<Q: Chooser>(world: &World<Q>) -> ClientSet {
    let mut clients = ClientSet::empty();
    for number in 0..world.limits().clients() {
        let number = ClientNo::new(number);
        if let Some(client) = world.client(number) {
            if is_at_work(client.status()) {
                clients.insert(number);
            }
        }
    }
    clients
}

fn is_at_work(status: ClientStatus) -> bool {
    match status {
        ClientStatus::Open | ClientStatus::Waiting | ClientStatus::Committing => true,
        ClientStatus::NotWelcome | ClientStatus::Idle => false,
    }
}

/// The transaction that ended, of one of the clients that had one.
pub(crate) fn ended<Q: Chooser>(world: &World<Q>, before: ClientSet) -> Option<TransactionEnd> {
    let mut from = 0;
    for _client in 0..32u16 {
        let number = before.next(from)?;
        if let Some(client) = world.client(number) {
            if let Some(outcome) = outcome_of(client) {
                return Some(TransactionEnd {
                    client: number,
                    outcome,
                });
            }
        }
        from = number.index() + 1;
    }
    None
}

/// How the last transaction ended of a client that has none now.
fn outcome_of<Q: Chooser>(client: &Client<Q>) -> Option<Outcome> {
    match client.status() {
        ClientStatus::Idle => client.last(),
        _ => None,
    }
}
