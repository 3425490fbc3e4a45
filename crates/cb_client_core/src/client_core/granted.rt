//! A copy that comes, and the page that goes for it.
ghost use Rattle.std.specs.Prelude.{◌≡◌, ◌<◌, ◌≤◌, ◌≢◌, ◌==◌, ◌&&◌, not, nat_lt, true, false};
ghost use Rattle.std.specs.Prelude.{unwrap_or, length, option_to_list, List, ℕ, None, Ok, IfErr};
ghost use Rattle.std.specs.Prelude.{IfOk};
ghost use Rattle.std.specs.Prelude.{IfSome, IsErr, IsOk, OnErr};
ghost use Rattle.std.specs.Option.{is_some};
ghost use Rattle.cb_page.specs.Flags.{has};
ghost use Rattle.cb_page.specs.Numbers.{IsNumber};
ghost use Rattle.cb_client_core.specs.ByTable.{Takes, limits_at};
ghost use Rattle.cb_client_core.specs.ClientState.{IsClient, ask_of};
ghost use Rattle.cb_client_core.specs.Parts.{client_in};
ghost use Rattle.cb_client_core.specs.GrantCases.{after_gone, case_at, said_of_gone};
ghost use Rattle.cb_client_core.specs.Room.{comes_in, room_of_grant};
ghost use Rattle.cb_cache.specs.ByTable.{Does};
ghost use Rattle.cb_cache.specs.CacheState.{content_at, copy_at};
ghost use Rattle.cb_cache.specs.Ending.{all_sent_by};
ghost use Rattle.cb_outbox.specs.Messages.{messages_of};
ghost use Rattle.cb_pool.specs.PoolState.{has_free_slot};
ghost use Rattle.cb_pool.specs.declared.pool.PoolFault.TheVariants.{Full};
ghost use Rattle.cb_protocol.specs.Client.{asks_to_read};
ghost use Rattle.cb_protocol.specs.Messages.{Granted};
ghost use Rattle.cb_protocol.specs.Ranges.{BodyFits};

use crate::client_core::ClientCore;
use crate::stage::PendingAsk;
use cb_cache::Cache;
use cb_frame::Frame;
use cb_locks::ReadLocks;
use cb_page::{GrantNo, Page, PageNo, Version};
use cb_pool::PoolFault;
use cb_twoq::Chooser;
use std::alloc::AllocFailed;

/// What becomes of a grant that comes.
#[derive(Clone, Copy)]
pub enum GrantCase {
    /// Nothing: its bytes are here, or were not asked for.
    Ignored,
    /// It is given back: it isn't the one held, or not a new one that was asked for.
    Refused,
    /// Its bytes are those of the bare grant that is held.
    Filled,
    /// It is a new copy.
    Installed,
}

impl GrantCase {
    /// Whether the page comes into the pool.
    pub(super) fn comes_in(self) -> bool
        ensures { result ≡ comes_in self }
    {
        match self {
            GrantCase::Ignored | GrantCase::Refused => false,
            GrantCase::Filled | GrantCase::Installed => true,
        }
    }
}

impl<Q: Chooser> ClientCore<Q> {
    /// Whether an ask to read the page is out.
    fn asks_to_read(&self, page: PageNo) -> bool
        ensures { result ≡ asks_to_read (ask_of self.now.ask) page }
    {
        match self.ask {
            PendingAsk::Read(asked) => asked == page,
            _ => false,
        }
    }

    /// Whether bytes, of the version held or not, are wanted for the grant of a page that is held:
    /// it is bare, and was asked for.
    fn wants_bytes(&self, page: PageNo, same_version: bool) -> bool
        ensures { result ≡ (not (is_some (content_at self.now.copies page))
            && (same_version && asks_to_read (ask_of self.now.ask) page)) }
    {
        let bare = self.copies.peek(page).is_none();
        bare && same_version && self.asks_to_read(page)
    }

    /// What becomes of a grant.
    pub(super) fn case_of(&self, page: PageNo, grant: GrantNo, version: Version) -> GrantCase
        requires page { page < self.now.copies.limits.pages }
        requires grant { IsNumber grant }
        ensures { result ≡ case_at (client_in self.now) page grant version }
    {
        let copy = self.copies.at(page);
        match copy.held {
            Some(held) if held != grant => GrantCase::Refused,
            Some(_) if self.wants_bytes(page, copy.version == version) => GrantCase::Filled,
            Some(_) => GrantCase::Ignored,
            None if is_new(copy.seen, grant) && self.asks_to_read(page) => GrantCase::Installed,
            None => GrantCase::Refused,
        }
    }

    /// How many frames a grant may need room for.
    pub(super) fn room_of_grant(&self, case: GrantCase) -> usize
        ensures { result ≡ room_of_grant (has_free_slot self.now.copies.pool) case }
    {
        match case {
            GrantCase::Ignored => 0,
            GrantCase::Refused => 1,
            GrantCase::Filled | GrantCase::Installed => usize::from(!self.copies.has_free_slot()),
        }
    }

    /// A grant comes whose page doesn't come in, whatever its bytes. Returns the frame that gives
    /// it back.
    pub(super) fn turn_away(
        &mut self,
        case: GrantCase,
        page: PageNo,
        grant: GrantNo,
    ) -> Option<Frame>
        requires sound { IsClient (client_in self.old) }
        requires welcomed { self.old.welcomed ≡ true }
        requires page { page < self.old.copies.limits.pages }
        requires grant { IsNumber grant }
        requires stays_out { comes_in case ≡ false }
        ensures takes { (version : ℕ) (bytes : List ℕ)
            → case ≡ case_at (client_in self.old) page grant version
            → Takes (client_in self.old) (Granted page grant version bytes)
            (messages_of (option_to_list result)) (client_in self.new) }
        ensures sound { (version : ℕ) (bytes : List ℕ)
            → case ≡ case_at (client_in self.old) page grant version
            → BodyFits (limits_at (client_in self.old)) (Granted page grant version bytes)
            → IsClient (client_in self.new) }
        ensures room { length (option_to_list result)
            ≤ room_of_grant (has_free_slot self.old.copies.pool) case }
    {
        match case {
            GrantCase::Ignored => None,
            GrantCase::Refused => {
                let due = self.locks.called(page, grant);
                self.copies.refuse(page, grant);
                Some(due.give_back())
            }
            GrantCase::Filled => unreachable!(),
            GrantCase::Installed => unreachable!(),
        }
    }

    /// A grant comes whose page comes in. If a page went for it, returns the frame that gives that
    /// page's copy back.
    ///
    /// Refused only if a growth was; nothing changes then, and the bytes come back.
    pub(super) fn take_in(
        &mut self,
        case: GrantCase,
        page: PageNo,
        grant: GrantNo,
        version: Version,
        bytes: Page,
    ) -> Result<Option<Frame>, AllocFailed<Page>>
        requires sound { IsClient (client_in self.old) }
        requires welcomed { self.old.welcomed ≡ true }
        requires fits { BodyFits (limits_at (client_in self.old))
            (Granted page grant version bytes) }
        requires case { case ≡ case_at (client_in self.old) page grant version }
        requires comes_in { comes_in case ≡ true }
        ensures ok { IfOk result (λ frame. Takes (client_in self.old)
            (Granted page grant version bytes)
            (messages_of (option_to_list frame)) (client_in self.new)) }
        ensures room { IfOk result (λ frame. length (option_to_list frame)
            ≤ room_of_grant (has_free_slot self.old.copies.pool) case) }
        ensures err { OnErr result (self.new ≡ self.old) }
        ensures back { IfErr result (λ failed. failed.value ≡ bytes) }
        ensures sound { IsClient (client_in self.new) }
    {
        match case {
            GrantCase::Ignored => unreachable!(),
            GrantCase::Refused => unreachable!(),
            GrantCase::Filled => {
                let gone = come_in(self.copies.fill(page, bytes))?;
                self.ask = PendingAsk::Nothing;
                Ok(give_gone(&mut self.copies, &self.locks, gone))
            }
            GrantCase::Installed => {
                let gone = come_in(self.copies.install(page, grant, version, bytes))?;
                self.ask = PendingAsk::Nothing;
                let frame = give_gone(&mut self.copies, &self.locks, gone);
                self.locks.lock(page);
                Ok(frame)
            }
        }
    }
}

/// Whether the grant is greater than the greatest one that came before it.
fn is_new(seen: Option<GrantNo>, grant: GrantNo) -> bool
    requires { IsNumber grant }
    ensures { result ≡ nat_lt (unwrap_or seen 0) grant }
{
    match seen {
        Some(seen) => seen < grant,
        None => true,
    }
}

/// The page that went for the one that came in, if there was room; otherwise the bytes of the
/// latter.
fn come_in(
    came: Result<Option<PageNo>, (PoolFault, Page)>,
) -> Result<Option<PageNo>, AllocFailed<Page>>
    requires { IfErr came (λ refused. refused.0 ≢ Full) }
    ensures ok { IfOk result (λ gone. came ≡ Ok gone) }
    ensures err { IsErr result → IsErr came }
    ensures back { IfErr result (λ failed. IfErr came (λ refused. failed.value ≡ refused.1)) }
{
    match came {
        Ok(gone) => Ok(gone),
        Err((PoolFault::Memory, bytes)) => Err(AllocFailed { value: bytes }),
        Err((PoolFault::Full, _)) => unreachable!(),
    }
}

/// A page whose bytes went from the pool: its grant is bare if the transaction has read it, else
/// its copy is given back.
fn give_gone<Q: Chooser>(
    copies: &mut Cache<Q>,
    locks: &ReadLocks,
    gone: Option<PageNo>,
) -> Option<Frame>
    requires page { IfSome gone (λ page. page < copies.old.limits.pages) }
    requires unwritten { IfSome gone (λ page. has copies.old.wrote page ≡ false) }
    ensures does { Does copies.old (after_gone copies.old locks.now gone) copies.new }
    ensures says { messages_of (option_to_list result)
        ≡ all_sent_by locks.now (said_of_gone copies.old locks.now gone) }
    ensures none { gone ≡ None → result ≡ None }
{
    let gone = gone?;
    if locks.is_locked(gone) {
        return None;
    }
    let grant = copies.at(gone).held?;
    copies.let_go(gone);
    Some(locks.called(gone, grant).give_back())
}
