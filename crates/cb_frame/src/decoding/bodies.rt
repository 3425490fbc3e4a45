//! Bodies of a kind and a length that can be.
ghost use Rattle.std.specs.Prelude.{◌≡◌, ◌≢◌, Err, ◌≤◌, ◌+◌, ◌&&◌, nat_lt, length, true};
ghost use Rattle.std.specs.Int.{w32, w64};
ghost use Rattle.cb_page.specs.Numbers.{is_number};
ghost use Rattle.cb_page.specs.Faults.{first_fault};
ghost use Rattle.cb_frame.specs.declared.fault.FrameFault.TheVariants as fault;
ghost use Rattle.cb_frame.specs.Fields.{fields_fit, fields_of};
ghost use Rattle.cb_frame.specs.Kinds.{is_short};
ghost use Rattle.cb_frame.specs.Versions.{size_length};
ghost use Rattle.cb_frame.specs.Checks.{body_causes, can_be_length, short_at, commit_at};
ghost use Rattle.cb_frame.specs.Checks.{granted_at, body_at, number, short_length, Gives};
ghost use Rattle.cb_frame.specs.Checks.{GivesInRange};

use crate::decoding::entries::{numbers_fit, pages_rise, writes_of};
use crate::decoding::lengths::count_in;
use crate::decoding::numbers::{
    commit_no_at, grant_at, page_at, page_grant_at, txn_at, version_at,
};
use crate::{Body, FrameFault, FrameVersion, Kind, ShortBody};
use cb_page::{GrantNo, Limits, Page, PageNo, TxnNo};
use std::alloc::Global;

/// The body, its numbers in range and a commit's pages rising.
#[tactic(auto, unfolding(crate::specs::Checks::can_be_length, crate::specs::Checks::body_at, crate::specs::Checks::numbers_fit, crate::specs::Checks::pages_rise))]
pub fn body_of(
    alloc: Global,
    limits: &Limits,
    version: FrameVersion,
    kind: Kind,
    body: &[u8],
) -> Result<Body, FrameFault>
    requires { can_be_length limits.now version kind (length body.now) ≡ true }
    ensures body { Gives
        (first_fault (body_causes limits.now (body_at limits.now version kind body.now)))
        (body_at limits.now version kind body.now)
        result }
    ensures memory { is_short kind ≡ true → result ≢ Err fault.Memory }
    ensures empty { length body.now ≤ 10 → result ≢ Err fault.Memory }
{
    match kind {
        Kind::Commit => commit_of(alloc, limits, version, body),
        Kind::Granted => granted_of(alloc, limits, version, body),
        _ => {
            let short = short_of(limits, kind, body)?;
            Ok(Body::Short(short))
        }
    }
}

/// A body without page bytes.
#[tactic(auto, unfolding(crate::specs::Checks::short_length, crate::specs::Checks::short_at, crate::specs::Fields::fields_fit))]
fn short_of(limits: &Limits, kind: Kind, body: &[u8]) -> Result<ShortBody, FrameFault>
    requires len { length body.now ≡ short_length kind }
    requires short { is_short kind ≡ true }
    ensures { GivesInRange
        (fields_fit limits.now (fields_of (short_at kind body.now)))
        (short_at kind body.now)
        result }
{
    match kind {
        Kind::Hello => Ok(ShortBody::Hello),
        Kind::AskRead => {
            let (txn, page) = txn_page_at(limits, body)?;
            Ok(ShortBody::AskRead { txn, page })
        }
        Kind::AskWrite => {
            let (txn, page, grant) = txn_page_grant_at(limits, body)?;
            Ok(ShortBody::AskWrite { txn, page, grant })
        }
        Kind::GiveBack => {
            let (page, grant) = page_grant_at(limits, body, 0)?;
            Ok(ShortBody::GiveBack { page, grant })
        }
        Kind::InUse => {
            let (txn, page, grant) = txn_page_grant_at(limits, body)?;
            Ok(ShortBody::InUse { txn, page, grant })
        }
        Kind::Drop => {
            let txn = txn_at(body, 0)?;
            Ok(ShortBody::Drop { txn })
        }
        Kind::Welcome => Ok(ShortBody::Welcome),
        Kind::MayWrite => {
            let (txn, page, grant) = txn_page_grant_at(limits, body)?;
            Ok(ShortBody::MayWrite { txn, page, grant })
        }
        Kind::Callback => {
            let (page, grant) = page_grant_at(limits, body, 0)?;
            Ok(ShortBody::Callback { page, grant })
        }
        Kind::Done => {
            let txn = txn_at(body, 0)?;
            let number = commit_no_at(body, 8)?;
            Ok(ShortBody::Done { txn, number })
        }
        Kind::AbortNow => {
            let txn = txn_at(body, 0)?;
            Ok(ShortBody::AbortNow { txn })
        }
        Kind::Downgraded => {
            let (page, grant, txn) = page_grant_txn_at(limits, body)?;
            Ok(ShortBody::Downgraded { page, grant, txn })
        }
        Kind::Downgrade => {
            let (page, grant, txn) = page_grant_txn_at(limits, body)?;
            Ok(ShortBody::Downgrade { page, grant, txn })
        }
        Kind::Commit | Kind::Granted => unreachable!(),
    }
}

fn txn_page_at(limits: &Limits, body: &[u8]) -> Result<(TxnNo, PageNo), FrameFault>
    requires { 12 ≤ length body.now }
    ensures { let txn = number w64 0 body.now in let page = number w32 8 body.now in
        GivesInRange (is_number txn && nat_lt page limits.now.pages) (txn, page) result }
{
    let txn = txn_at(body, 0)?;
    let page = page_at(limits, body, 8)?;
    Ok((txn, page))
}

fn txn_page_grant_at(limits: &Limits, body: &[u8]) -> Result<(TxnNo, PageNo, GrantNo), FrameFault>
    requires { 20 ≤ length body.now }
    ensures { let txn = number w64 0 body.now in let page = number w32 8 body.now in
        let grant = number w64 12 body.now in
        GivesInRange
        (is_number txn && (nat_lt page limits.now.pages && is_number grant))
        (txn, page, grant)
        result }
{
    let txn = txn_at(body, 0)?;
    let (page, grant) = page_grant_at(limits, body, 8)?;
    Ok((txn, page, grant))
}

fn page_grant_txn_at(limits: &Limits, body: &[u8]) -> Result<(PageNo, GrantNo, TxnNo), FrameFault>
    requires { 20 ≤ length body.now }
    ensures { let page = number w32 0 body.now in let grant = number w64 4 body.now in
        let txn = number w64 12 body.now in
        GivesInRange
        (nat_lt page limits.now.pages && (is_number grant && is_number txn))
        (page, grant, txn)
        result }
{
    let page = page_at(limits, body, 0)?;
    let grant = grant_at(body, 4)?;
    let txn = txn_at(body, 12)?;
    Ok((page, grant, txn))
}

/// All numbers, and then the order of the pages, are looked at before the first growth.
#[tactic(auto, unfolding(crate::specs::Checks::can_be_length, crate::specs::Checks::numbers_fit, crate::specs::Checks::pages_rise))]
fn commit_of(
    alloc: Global,
    limits: &Limits,
    version: FrameVersion,
    body: &[u8],
) -> Result<Body, FrameFault>
    requires { can_be_length limits.now version Kind.Commit (length body.now) ≡ true }
    ensures body { let commit = commit_at version limits.now.page_size body.now in
        Gives (first_fault (body_causes limits.now commit)) commit result }
    ensures empty { length body.now ≤ 10 → result ≢ Err fault.Memory }
{
    let txn = txn_at(body, 0)?;
    let count = count_in(version, limits.page_size(), body.len());
    let entries = &body[10..];
    if !numbers_fit(limits, version, count, entries) {
        return Err(FrameFault::Range);
    }
    if !pages_rise(limits, version, count, entries) {
        return Err(FrameFault::Order);
    }
    let writes = writes_of(alloc, limits, version, count, entries)?;
    Ok(Body::Commit { txn, writes })
}

#[tactic(auto, unfolding(crate::specs::Checks::numbers_fit, crate::specs::Checks::pages_rise))]
fn granted_of(
    alloc: Global,
    limits: &Limits,
    version: FrameVersion,
    body: &[u8],
) -> Result<Body, FrameFault>
    requires { length body.now ≡ 20 + size_length version + limits.now.page_size }
    ensures { let granted = granted_at version limits.now.page_size body.now in
        Gives (first_fault (body_causes limits.now granted)) granted result }
{
    let (page, grant) = page_grant_at(limits, body, 0)?;
    let page_version = version_at(body, 12)?;
    let bytes = Page::copy_of(alloc, &body[20 + version.size_length()..])?;
    Ok(Body::Granted {
        page,
        grant,
        version: page_version,
        bytes,
    })
}
