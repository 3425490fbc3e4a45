//! An ask that has left its queue.
ghost use Rattle.std.specs.Prelude.{◌≡◌};
ghost use Rattle.cb_asks.specs.declared.ask.Fate.TheVariants as fate;

use cb_page::{ClientNo, GrantNo};
use std::marker::Model;

/// An ask that has left its queue, and isn't answered yet. It can't be copied or dropped. One of
/// three calls spends it, says what became of it, and returns its [`Fate`].
pub struct Ask {
    client: ClientNo,
    write_grant: Option<GrantNo>,
}

/// What became of an ask: the call by which it was spent.
#[derive(Clone, Copy)]
pub enum Fate {
    /// Its client got the copy, or may write its copy of that grant.
    Granted {
        client: ClientNo,
        write_grant: Option<GrantNo>,
    },
    /// Its client's transaction was doomed.
    Doomed {
        client: ClientNo,
    },
    /// Its client's transaction ended.
    Gone {
        client: ClientNo,
    },
}

impl Model for Ask {
    ghost use Rattle.cb_asks.specs.Queues.{Asked};

    ghost Value = { Asked };

    ghost view = { λ a. record { client = a.client; write_grant = a.write_grant } };
}

impl Ask {
    /// Only a queue makes one.
    pub(crate) fn new(client: ClientNo, write_grant: Option<GrantNo>) -> Ask
        ensures { result ≡ record { client = client; write_grant = write_grant } }
    {
        Ask {
            client,
            write_grant,
        }
    }

    /// It was granted.
    pub fn granted(self) -> Fate
        ensures { result ≡ fate.Granted self.client self.write_grant }
    {
        let Ask {
            client,
            write_grant,
        } = self;
        Fate::Granted {
            client,
            write_grant,
        }
    }

    /// Its client's transaction was doomed.
    pub fn doomed(self) -> Fate
        ensures { result ≡ fate.Doomed self.client }
    {
        let Ask {
            client,
            write_grant: _,
        } = self;
        Fate::Doomed { client }
    }

    /// Its client's transaction ended.
    pub fn gone(self) -> Fate
        ensures { result ≡ fate.Gone self.client }
    {
        let Ask {
            client,
            write_grant: _,
        } = self;
        Fate::Gone { client }
    }
}
