//! The numbers of a body without page bytes.
ghost use Rattle.std.specs.Prelude.{◌≡◌, ◌<◌, ◌≤◌, ◌+◌, ◌++◌, IsTrue, ◌↔◌, length, OnOk, OnErr};
ghost use Rattle.std.specs.Vec.{vec_len, vec_capacity};
ghost use Rattle.cb_frame.specs.Fields.{FieldsFit, fields_length, fields_spelling};

use crate::words::{put_u32, put_u64};
use cb_page::{CommitNo, GrantNo, Limits, PageNo, TxnNo};
use std::alloc::AllocError;

/// The numbers of a body without page bytes, in the order of its frame. Fifteen kinds share these
/// seven shapes.
#[derive(Clone, Copy)]
pub enum Fields {
    Nothing,
    Txn(TxnNo),
    TxnPage(TxnNo, PageNo),
    TxnPageGrant(TxnNo, PageNo, GrantNo),
    TxnCommit(TxnNo, CommitNo),
    PageGrant(PageNo, GrantNo),
    PageGrantTxn(PageNo, GrantNo, TxnNo),
}

impl Fields {
    /// Whether the page is one of the store's. The other numbers are in range by their types.
    pub fn fit(self, limits: &Limits) -> bool
        ensures { IsTrue result ↔ FieldsFit limits.now self }
    {
        match self {
            Fields::Nothing => true,
            Fields::Txn(txn) => {
                // In range by its type: `get` says so.
                let _known = txn.get();
                true
            }
            Fields::TxnPage(txn, page) => {
                // In range by its type: `get` says so.
                let _known = txn.get();
                limits.has_page(page.get())
            }
            Fields::TxnPageGrant(txn, page, grant) | Fields::PageGrantTxn(page, grant, txn) => {
                // In range by its type: `get` says so.
                let _known = (txn.get(), grant.get());
                limits.has_page(page.get())
            }
            Fields::TxnCommit(txn, number) => {
                // In range by its type: `get` says so.
                let _known = (txn.get(), number.get());
                true
            }
            Fields::PageGrant(page, grant) => {
                // In range by its type: `get` says so.
                let _known = grant.get();
                limits.has_page(page.get())
            }
        }
    }

    /// How many bytes they take.
    #[tactic(auto, unfolding(crate::specs::Fields::fields_spelling, crate::specs::Fields::word))]
    pub fn len(self) -> usize
        ensures value { result ≡ length (fields_spelling self) }
        ensures small { result ≤ 20 }
    {
        match self {
            Fields::Nothing => 0,
            Fields::Txn(_) => 8,
            Fields::TxnPage(..) | Fields::PageGrant(..) => 12,
            Fields::TxnCommit(..) => 16,
            Fields::TxnPageGrant(..) | Fields::PageGrantTxn(..) => 20,
        }
    }

    /// Appends them to the bytes. It is refused only if there is no room for them and memory for
    /// more is refused. Some of them may have been appended by then.
    #[tactic(auto, using(std::proofs::Common::append_assoc), unfolding(crate::specs::Fields::fields_spelling))]
    pub fn put(self, out: &mut Vec<u8>) -> Result<(), AllocError>
        ensures put { OnOk result (out.new.items ≡ out.old.items ++ fields_spelling self) }
        ensures len { OnOk result (vec_len out.new ≡ vec_len out.old + fields_length self) }
        // The capacity never shrinks, and room that was there is enough.
        ensures capacity { vec_capacity out.old ≤ vec_capacity out.new }
        ensures full { OnErr result (
            vec_capacity out.old < vec_len out.old + fields_length self) }
    {
        match self {
            Fields::Nothing => Ok(()),
            Fields::Txn(txn) => put_u64(out, txn.get()),
            Fields::TxnPage(txn, page) => {
                put_u64(out, txn.get())?;
                put_u32(out, page.get())
            }
            Fields::TxnPageGrant(txn, page, grant) => {
                put_u64(out, txn.get())?;
                put_u32(out, page.get())?;
                put_u64(out, grant.get())
            }
            Fields::TxnCommit(txn, number) => {
                put_u64(out, txn.get())?;
                put_u64(out, number.get())
            }
            Fields::PageGrant(page, grant) => {
                put_u32(out, page.get())?;
                put_u64(out, grant.get())
            }
            Fields::PageGrantTxn(page, grant, txn) => {
                put_u32(out, page.get())?;
                put_u64(out, grant.get())?;
                put_u64(out, txn.get())
            }
        }
    }
}
