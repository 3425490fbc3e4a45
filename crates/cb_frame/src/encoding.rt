//! From a frame to its bytes.
ghost use Rattle.std.specs.Prelude.{◌≡◌, ◌+◌, ◌<◌, ◌≤◌, ◌*◌, ◌^◌, ◌∷◌, ◌++◌, length, OnOk, IfOk};
ghost use Rattle.std.specs.Int.{w16, w32, w64};
ghost use Rattle.std.specs.List.{flat_map, All};
ghost use Rattle.cb_frame.specs.Grammar.{FitsSome, BodyFitsSome, WritesFitSome};
ghost use Rattle.cb_frame.specs.declared.frame.Body.TheVariants.{Granted};
ghost use Rattle.cb_frame.specs.Kinds.{code_of, kind_of_body};
ghost use Rattle.cb_frame.specs.declared.version.FrameVersion.TheVariants.{Two};
ghost use Rattle.cb_frame.specs.Fields.{word};
ghost use Rattle.cb_frame.specs.Spelling.{spelling, body_spelling, write_spelling};
ghost use Rattle.cb_frame.specs.Spelling.{page_spelling};

use crate::{Body, Frame, FrameVersion, Kind, Write, put_u16, put_u32, put_u64};
use cb_page::{ClientNo, GrantNo, Incarnation, PageNo, Version};
use std::alloc::{AllocError, Global};

/// The length of a frame's header.
const HEADER: usize = 16;

/// The bytes of a frame. It is refused only if memory is, which it takes once, as much as the bytes
/// need.
#[tactic(auto, unfolding(crate::specs::Spelling::spelling, crate::specs::Spelling::spelling_in))]
pub fn encode(alloc: Global, frame: &Frame) -> Result<Vec<u8>, AllocError>
    requires { FitsSome frame.now }
    ensures { IfOk result (λ v. v.items ≡ spelling frame.now) }
{
    let size = body_size(&frame.body);
    let mut out = Vec::with_capacity(alloc, HEADER + size)?;
    put_header(
        &mut out,
        frame.kind(),
        frame.client,
        frame.incarnation,
        size as u32,
    )?;
    put_body(&mut out, &frame.body)?;
    Ok(out)
}

/// The bytes of a frame that grants a page, made of the page's own bytes, which are lent. They are
/// what [`encode`] writes, but the page isn't copied first.
///
/// It is refused only if memory is, which it takes once, as much as the bytes need.
#[tactic(auto, using(crate::proofs::Sizes::granted_length, std::proofs::Common::append_assoc), unfolding(crate::specs::Spelling::spelling, crate::specs::Spelling::spelling_in))]
pub fn encode_granted(
    alloc: Global,
    client: ClientNo,
    incarnation: Incarnation,
    page: PageNo,
    grant: GrantNo,
    version: Version,
    bytes: &[u8],
) -> Result<Vec<u8>, AllocError>
    requires { length bytes.now ≤ 65536 }
    ensures { IfOk result (λ v. v.items ≡ spelling (record {
      client = client;
      incarnation = incarnation;
      body = Granted page grant version bytes.now;
    })) }
{
    let size = granted_size(bytes);
    let mut out = Vec::with_capacity(alloc, HEADER + size)?;
    put_header(&mut out, Kind::Granted, client, incarnation, size as u32)?;
    put_granted(&mut out, page, grant, version, bytes)?;
    Ok(out)
}

/// The length of the body's bytes.
#[tactic(auto, unfolding(crate::specs::Fields::word, crate::specs::Spelling::page_spelling, crate::specs::Spelling::body_spelling))]
fn body_size(body: &Body) -> usize
    requires { BodyFitsSome body.now }
    ensures value { result ≡ length (body_spelling Two body.now) }
    ensures small { result < 2 ^ 32 }
{
    match body {
        Body::Short(body) => body.fields().len(),
        Body::Commit { writes, .. } => 10 + writes_size(writes.as_slice()),
        Body::Granted { bytes, .. } => granted_size(bytes.as_slice()),
    }
}

/// The length of the body of a frame that grants a page.
fn granted_size(bytes: &[u8]) -> usize
    requires { length bytes.now ≤ 65536 }
    ensures { result ≡ 24 + length bytes.now }
{
    24 + bytes.len()
}

/// The length of the bytes of a commit's pages. They have one size, since they fit.
fn writes_size(writes: &[Write]) -> usize
    requires { WritesFitSome writes.now }
    ensures value { result ≡ length (flat_map (write_spelling Two) writes.now) }
    ensures small { result ≤ 4096 * 65552 }
{
    match writes.first() {
        None => 0,
        Some(write) => writes.len() * (16 + write.bytes.len()),
    }
}

#[tactic(auto, using(std::proofs::Common::append_assoc), unfolding(crate::specs::Spelling::body_spelling))]
fn put_body(out: &mut Vec<u8>, body: &Body) -> Result<(), AllocError>
    requires { BodyFitsSome body.now }
    ensures { OnOk result (out.new.items ≡ out.old.items ++ body_spelling Two body.now) }
{
    match body {
        Body::Short(body) => body.fields().put(out)?,
        Body::Commit { txn, writes } => {
            put_u64(out, txn.get())?;
            put_u16(out, writes.len() as u16)?;
            put_writes(out, writes.as_slice())?;
        }
        Body::Granted {
            page,
            grant,
            version,
            bytes,
        } => {
            put_granted(out, *page, *grant, *version, bytes.as_slice())?;
        }
    }
    Ok(())
}

#[tactic(auto, using(std::proofs::Common::append_assoc), unfolding(crate::specs::Spelling::body_spelling))]
fn put_granted(
    out: &mut Vec<u8>,
    page: PageNo,
    grant: GrantNo,
    version: Version,
    bytes: &[u8],
) -> Result<(), AllocError>
    requires { length bytes.now < 2 ^ 32 }
    ensures { OnOk result (
        out.new.items ≡ out.old.items ++ body_spelling Two (Granted page grant version bytes.now)) }
{
    put_page_grant(out, page, grant)?;
    put_u64(out, version.get())?;
    put_page(out, bytes)
}

/// The header of a frame, whose body has this length.
#[tactic(auto, using(std::proofs::Common::append_assoc))]
fn put_header(
    out: &mut Vec<u8>,
    kind: Kind,
    client: ClientNo,
    incarnation: Incarnation,
    size: u32,
) -> Result<(), AllocError>
    ensures { OnOk result (out.new.items ≡ out.old.items
        ++ 2 ∷ code_of kind ∷ (word w16 client ++ (word w64 incarnation ++ word w32 size))) }
{
    out.push(FrameVersion::Two.byte())?;
    out.push(kind.code())?;
    put_u16(out, client.get())?;
    put_u64(out, incarnation.get())?;
    put_u32(out, size)
}

fn put_writes(out: &mut Vec<u8>, writes: &[Write]) -> Result<(), AllocError>
    requires { All (λ w. length w.bytes < 2 ^ 32) writes.now }
    ensures { OnOk result (
        out.new.items ≡ out.old.items ++ flat_map (write_spelling Two) writes.now) }
{
    for write in writes {
        put_write(out, write)?;
    }
    Ok(())
}

#[tactic(auto, using(std::proofs::Common::append_assoc), unfolding(crate::specs::Spelling::write_spelling))]
fn put_write(out: &mut Vec<u8>, write: &Write) -> Result<(), AllocError>
    requires { length write.now.bytes < 2 ^ 32 }
    ensures { OnOk result (out.new.items ≡ out.old.items ++ write_spelling Two write.now) }
{
    put_page_grant(out, write.page, write.grant)?;
    put_page(out, write.bytes.as_slice())
}

#[tactic(auto, using(std::proofs::Common::append_assoc), unfolding(crate::specs::Spelling::page_spelling))]
fn put_page(out: &mut Vec<u8>, bytes: &[u8]) -> Result<(), AllocError>
    requires { length bytes.now < 2 ^ 32 }
    ensures { OnOk result (out.new.items ≡ out.old.items ++ page_spelling Two bytes.now) }
{
    put_u32(out, bytes.len() as u32)?;
    out.extend_from_slice(bytes)
}

#[tactic(auto, using(std::proofs::Common::append_assoc))]
fn put_page_grant(out: &mut Vec<u8>, page: PageNo, grant: GrantNo) -> Result<(), AllocError>
    ensures { OnOk result (out.new.items ≡ out.old.items ++ (word w32 page ++ word w64 grant)) }
{
    put_u32(out, page.get())?;
    put_u64(out, grant.get())
}
