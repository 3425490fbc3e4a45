//! What a commit says of the pages that the transaction wrote.
ghost use Rattle.std.specs.Prelude.{◌≡◌, ℕ, true, false, [], ◌∷◌, length, IfOk, IsOk};
ghost use Rattle.cb_cache.specs.CacheState.{AreCopies, client_with};
ghost use Rattle.cb_outbox.specs.Messages.{page_write, page_writes};
ghost use Rattle.cb_page.specs.Flags.{has};
ghost use Rattle.cb_protocol.specs.Client.{Client as TableClient};
ghost use Rattle.cb_protocol.specs.ClientCalls.{written_page, written_pages};

use cb_cache::Cache;
use cb_frame::{Write, Writes};
use cb_page::{Page, PageNo};
use cb_twoq::Chooser;
use std::alloc::{AllocError, Global};

/// The pages that the transaction wrote, as its commit has them, rising. Room for all of them is
/// made before the first is copied. `AllocError` only if memory for them was refused, so never if
/// it wrote nothing.
pub fn written_so_far<Q: Chooser>(alloc: Global, copies: &Cache<Q>) -> Result<Writes, AllocError>
    ensures said { IfOk result (λ writes. (client : TableClient) → page_writes writes
        ≡ written_pages (client_with copies.now client) copies.now.limits.pages) }
    ensures nothing { ((page : ℕ) → has copies.now.wrote page ≡ false) → IsOk result }
{
    let mut writes = Vec::with_capacity(alloc, count_written(copies))?;
    let mut from = 0;
    while let Some(page) = copies.next_written(from) {
        let write = write_of(alloc, copies, page)?;
        writes.push_reserved(write);
        from = page.index() + 1;
    }
    Ok(Writes::from_vec(writes))
}

/// How many pages it wrote.
fn count_written<Q: Chooser>(copies: &Cache<Q>) -> usize
    ensures { (client : TableClient) → result
        ≡ length (written_pages (client_with copies.now client) copies.now.limits.pages) }
{
    // What holds of all copies, `limits` says: what was written is in the pool.
    let _known = copies.limits();
    let mut count = 0;
    let mut from = 0;
    while let Some(page) = copies.next_written(from) {
        count += 1;
        from = page.index() + 1;
    }
    count
}

/// What it says of one of them.
fn write_of<Q: Chooser>(alloc: Global, copies: &Cache<Q>, page: PageNo) -> Result<Write, AllocError>
    requires { has copies.now.wrote page ≡ true }
    ensures written { IfOk result (λ write. (client : TableClient)
        → written_page (client_with copies.now client) page
        ((client_with copies.now client).cache.held page)
        ((client_with copies.now client).cache.content page)
        ≡ page_write write ∷ []) }
    ensures sound { AreCopies copies.now }
{
    let Some(bytes) = copies.peek(page) else {
        unreachable!()
    };
    let Some(grant) = copies.at(page).held else {
        unreachable!()
    };
    let bytes = Page::copy_of(alloc, bytes)?;
    Ok(Write { page, grant, bytes })
}
