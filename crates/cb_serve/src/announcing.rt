//! A life is announced.
ghost use Rattle.std.specs.Prelude.{◌≡◌, IfErr, IfOk, OnOk};
ghost use Rattle.std.specs.Io.KnownBytes.{Appends};
ghost use Rattle.cb_serve.specs.Announcing.{StaysUnannounced, announcement};

use crate::fault::RoundFault;
use crate::output::put_out;
use cb_frame::put_u64;
use cb_page::Incarnation;
use cb_shelf::Life;
use std::alloc::{AllocError, Global};
use std::io::Write;

/// Announces that a life is served from now on, by a header of version 2 and kind 0 whose
/// incarnation is the life's floor. From then on a gateway serves the store, and gives its clients
/// incarnations above the floor.
pub fn announce<W: Write>(alloc: Global, life: &Life, output: &mut W) -> Result<(), RoundFault>
    ensures ok { OnOk result (Appends (W.contents output.old) (W.contents output.new)
        (announcement life.now.floor)) }
    ensures err { IfErr result (λ fault. StaysUnannounced fault life.now.floor
        (W.contents output.old) (W.contents output.new)) }
{
    let header = header_of(alloc, life.floor())?;
    match put_out(output, header.as_slice()) {
        Ok(()) => Ok(()),
        Err(error) => Err(RoundFault::Output(error)),
    }
}

/// The header.
fn header_of(alloc: Global, floor: Incarnation) -> Result<Vec<u8>, AllocError>
    ensures { IfOk result (λ bytes. bytes.items ≡ announcement floor) }
{
    let mut bytes = Vec::with_capacity(alloc, 16)?;
    bytes.extend_from_slice(&[2, 0, 0, 0])?;
    put_u64(&mut bytes, floor.get())?;
    bytes.extend_from_slice(&[0, 0, 0, 0])?;
    Ok(bytes)
}
