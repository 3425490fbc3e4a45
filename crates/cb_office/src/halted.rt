//! That an office was halted: who says so holds a value, which is made under the lock alone.
ghost use Rattle.std.specs.Prelude.{◌≡◌, IfSome};
ghost use Rattle.std.specs.Option.{is_some};
ghost use Rattle.cb_station.specs.Locking.{lent_station};

use cb_station::{LockedStation, Office};
use std::marker::Model;

/// Says that an office was halted. Only [`halted_at`] makes one, under the lock, and nobody can
/// copy it. In contracts it is the office's address, which is fixed as long as the value exists.
#[derive(Drop)]
pub(crate) struct WasHalted<'a> {
    office: &'a Office,
}

impl<'a> Model for WasHalted<'a> {
    ghost use Rattle.cb_worker.specs.Leaving.{Place};

    ghost Value = { Place };

    ghost view = { λ was. was.office.ref_ptr };
}

/// That this office was halted, if it was. The lock lives as long as the value may, so it is none
/// of an office that the caller made.
pub(crate) fn halted_at<'a>(office: &'a Office, locked: &LockedStation<'a>) -> Option<WasHalted<'a>>
    ensures office { IfSome result (λ was. was ≡ office.entry.ref_ptr) }
    ensures exact { is_some result ≡ (lent_station locked.now).flags.halted }
{
    if !locked.is_halted() {
        return None;
    }
    Some(WasHalted { office })
}
