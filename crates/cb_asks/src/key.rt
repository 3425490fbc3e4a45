//! A client's number as the key of a map.
ghost use Rattle.std.specs.Prelude.{◌≡◌};

use cb_page::ClientNo;
use std::marker::Model;

/// A client's number with a hash, which [`ClientNo`] lacks.
#[derive(Clone, Copy, PartialEq, Eq, Hash)]
pub(crate) struct Key {
    value: u16,
}

impl Model for Key {
    ghost use Rattle.std.specs.Prelude.{ℕ, ◌<◌};

    ghost Value = { ℕ };

    ghost view = { λ k. k.value };

    ghost invariant = { λ k. k.value < 32 };

    ghost inverse = { λ n. record { value = n } };
}

impl Key {
    /// The key of a client.
    pub(crate) fn of(client: ClientNo) -> Key
        ensures { result ≡ client }
    {
        Key {
            value: client.get(),
        }
    }

    /// The client of a key.
    pub(crate) fn client(self) -> ClientNo
        ensures { result ≡ self }
    {
        ClientNo::new(self.value)
    }
}
