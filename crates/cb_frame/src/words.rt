//! Numbers as bytes, their highest byte first.
ghost use Rattle.std.specs.Prelude.{◌≡◌, ◌<◌, ◌≤◌, ◌+◌, ◌++◌, OnOk, OnErr};
ghost use Rattle.std.specs.Int.{w16, w32, w64};
ghost use Rattle.std.specs.Vec.{vec_len, vec_capacity};
ghost use Rattle.cb_frame.specs.Fields.{word};

use std::alloc::AllocError;

/// Puts a number of two bytes behind what is there. It is refused only if room for them is lacking
/// and memory for more is refused; then nothing is appended.
#[tactic(auto, unfolding(crate::specs::Fields::word))]
pub fn put_u16(out: &mut Vec<u8>, n: u16) -> Result<(), AllocError>
    ensures put { OnOk result (out.new.items ≡ out.old.items ++ word w16 n) }
    ensures len { OnOk result (vec_len out.new ≡ vec_len out.old + 2) }
    ensures stays { OnErr result (out.new.items ≡ out.old.items) }
    // The capacity never shrinks, and room that was there is enough.
    ensures capacity { vec_capacity out.old ≤ vec_capacity out.new }
    ensures full { OnErr result (vec_capacity out.old < vec_len out.old + 2) }
{
    out.extend_from_slice(&n.to_be_bytes())
}

/// Puts a number of four bytes behind what is there. It is refused only if room for them is lacking
/// and memory for more is refused; then nothing is appended.
#[tactic(auto, unfolding(crate::specs::Fields::word))]
pub fn put_u32(out: &mut Vec<u8>, n: u32) -> Result<(), AllocError>
    ensures put { OnOk result (out.new.items ≡ out.old.items ++ word w32 n) }
    ensures len { OnOk result (vec_len out.new ≡ vec_len out.old + 4) }
    ensures stays { OnErr result (out.new.items ≡ out.old.items) }
    // The capacity never shrinks, and room that was there is enough.
    ensures capacity { vec_capacity out.old ≤ vec_capacity out.new }
    ensures full { OnErr result (vec_capacity out.old < vec_len out.old + 4) }
{
    out.extend_from_slice(&n.to_be_bytes())
}

/// Puts a number of eight bytes behind what is there. It is refused only if room for them is
/// lacking and memory for more is refused; then nothing is appended.
#[tactic(auto, unfolding(crate::specs::Fields::word))]
pub fn put_u64(out: &mut Vec<u8>, n: u64) -> Result<(), AllocError>
    ensures put { OnOk result (out.new.items ≡ out.old.items ++ word w64 n) }
    ensures len { OnOk result (vec_len out.new ≡ vec_len out.old + 8) }
    ensures stays { OnErr result (out.new.items ≡ out.old.items) }
    // The capacity never shrinks, and room that was there is enough.
    ensures capacity { vec_capacity out.old ≤ vec_capacity out.new }
    ensures full { OnErr result (vec_capacity out.old < vec_len out.old + 8) }
{
    out.extend_from_slice(&n.to_be_bytes())
}
