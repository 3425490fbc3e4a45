//! The limits of one store: how many clients and pages it has, and how its clients' pools are
//! sized.
ghost use Rattle.std.specs.Prelude.{◌≡◌, ℕ, ◌^◌, ◌<◌, ◌≤◌, ◌-◌, ◌↔◌, true, false, Some, None, IfOk};
ghost use Rattle.std.specs.Prelude.{IfErr, IsTrue, IsOk};
ghost use Rattle.cb_page.specs.Faults.{first_fault};
ghost use Rattle.cb_page.specs.Limits.{limit_causes, is_outside};
ghost use Rattle.cb_page.specs.Bounds.{Bounds, AreInRange};

use std::fmt;
use std::marker::Model;
use thiserror::Error;

/// What is wrong with proposed limits. The text is the fault's number and name. If several limits
/// are wrong, the fault with the lowest number is returned.
#[derive(Clone, Copy, Debug, PartialEq, Eq, Error)]
pub enum LimitFault {
    /// The number of clients isn't from 1 to 32.
    Clients,
    /// The number of pages isn't from 1 to 4,096.
    Pages,
    /// The page size isn't from 16 to 65,536 bytes in steps of 16.
    PageSize,
    /// The number of slots isn't from 2 to 1,024.
    Slots,
    /// Kin isn't from 1 to one less than the slots.
    Kin,
    /// Kout isn't from 1 to 4,096.
    Kout,
}

impl fmt::Display for LimitFault {
    ghost use Rattle.std.specs.Prelude.{Some};
    ghost use Rattle.cb_page.specs.FaultTexts.{limit_text};

    ghost output = { λ fault. Some (limit_text fault) };

    fn fmt<W: fmt::Write>(&self, f: &mut fmt::Formatter<W>) -> fmt::Result {
        let text = match self {
            LimitFault::Clients => "1 Clients",
            LimitFault::Pages => "2 Pages",
            LimitFault::PageSize => "3 PageSize",
            LimitFault::Slots => "4 Slots",
            LimitFault::Kin => "5 Kin",
            LimitFault::Kout => "6 Kout",
        };
        write!(f, "{text}")
    }
}

/// The limits of one store and its clients, all in range. In contracts they are the record of the
/// six numbers and of whether write permission is kept.
#[derive(Clone, Copy, Debug, PartialEq, Eq)]
pub struct Limits {
    clients: u16,
    pages: u32,
    page_size: u32,
    slots: u16,
    kin: u16,
    kout: u16,
    keep_write: bool,
}

impl Model for Limits {
    ghost use Rattle.cb_page.specs.Bounds.{Bounds, AreInRange};

    ghost Value = { Bounds };

    ghost view = { λ a. record {
      clients = a.clients;
      pages = a.pages;
      page_size = a.page_size;
      slots = a.slots;
      kin = a.kin;
      kout = a.kout;
      keep_write = a.keep_write;
    } };

    ghost invariant = { λ a. AreInRange (record {
      clients = a.clients;
      pages = a.pages;
      page_size = a.page_size;
      slots = a.slots;
      kin = a.kin;
      kout = a.kout;
      keep_write = a.keep_write;
    }) };

    ghost inverse = { λ b. record {
      clients = b.clients;
      pages = b.pages;
      page_size = b.page_size;
      slots = b.slots;
      kin = b.kin;
      kout = b.kout;
      keep_write = b.keep_write;
    } };
}

impl Limits {
    /// Limits with these numbers, or the first fault. They don't keep write permission:
    /// [`Limits::keeping`] does.
    pub fn new(
        clients: u64,
        pages: u64,
        page_size: u64,
        slots: u64,
        kin: u64,
        kout: u64,
    ) -> Result<Limits, LimitFault>
        ensures ok { IfOk result (λ l. l ≡ record {
          clients = clients;
          pages = pages;
          page_size = page_size;
          slots = slots;
          kin = kin;
          kout = kout;
          keep_write = false;
        }) }
        ensures in_range { IfOk result AreInRange }
        ensures succeeds { IsOk result
            ↔ (first_fault (limit_causes clients pages page_size slots kin kout) ≡ None) }
        ensures fault { IfErr result (λ e.
            first_fault (limit_causes clients pages page_size slots kin kout) ≡ Some e) }
    {
        if is_outside(1, 32, clients) {
            return Err(LimitFault::Clients);
        }
        if is_outside(1, 4096, pages) {
            return Err(LimitFault::Pages);
        }
        if is_outside(16, 65_536, page_size) || page_size % 16 != 0 {
            return Err(LimitFault::PageSize);
        }
        if is_outside(2, 1024, slots) {
            return Err(LimitFault::Slots);
        }
        if is_outside(1, slots - 1, kin) {
            return Err(LimitFault::Kin);
        }
        if is_outside(1, 4096, kout) {
            return Err(LimitFault::Kout);
        }
        Ok(Limits {
            clients: clients as u16,
            pages: pages as u32,
            page_size: page_size as u32,
            slots: slots as u16,
            kin: kin as u16,
            kout: kout as u16,
            keep_write: false,
        })
    }

    /// Whether a client has this number.
    pub fn has_client(&self, client: u16) -> bool
        ensures value { IsTrue result ↔ (client < self.now.clients) }
        ensures in_range { AreInRange self.now }
    {
        client < self.clients
    }

    /// Whether a page has this number.
    pub fn has_page(&self, page: u32) -> bool
        ensures value { IsTrue result ↔ (page < self.now.pages) }
        ensures in_range { AreInRange self.now }
    {
        page < self.pages
    }

    /// How many clients there are; they are numbered from 0.
    pub fn clients(&self) -> u16
        ensures value { result ≡ self.now.clients }
        ensures in_range { AreInRange self.now }
    {
        self.clients
    }

    /// How many pages the store has; they are numbered from 0.
    pub fn pages(&self) -> u32
        ensures value { result ≡ self.now.pages }
        ensures in_range { AreInRange self.now }
    {
        self.pages
    }

    /// B, the number of pages that a client's pool has room for.
    pub fn slots(&self) -> usize
        ensures value { result ≡ self.now.slots }
        ensures in_range { AreInRange self.now }
    {
        usize::from(self.slots)
    }

    /// Kin, the length from which the queue A1in of a client's pool gives up pages first.
    pub fn kin(&self) -> usize
        ensures value { result ≡ self.now.kin }
        ensures in_range { AreInRange self.now }
    {
        usize::from(self.kin)
    }

    /// Kout, the greatest length of the queue A1out of a client's pool.
    pub fn kout(&self) -> usize
        ensures value { result ≡ self.now.kout }
        ensures in_range { AreInRange self.now }
    {
        usize::from(self.kout)
    }

    /// The number of bytes of each page.
    pub fn page_size(&self) -> usize
        ensures value { result ≡ self.now.page_size }
        ensures in_range { AreInRange self.now }
    {
        self.page_size as usize
    }

    /// The same limits, but with kept write permission: a client keeps a permission after the
    /// transaction that it was given for, until the server asks for it back.
    pub fn keeping(self) -> Limits
        ensures value { result ≡ record self { keep_write = true } }
        ensures in_range { AreInRange result }
    {
        Limits {
            keep_write: true,
            ..self
        }
    }

    /// Whether a client keeps its permission to write a page after the transaction that it was
    /// given for.
    pub fn keep_write(&self) -> bool
        ensures value { result ≡ self.now.keep_write }
        ensures in_range { AreInRange self.now }
    {
        self.keep_write
    }
}

fn is_outside(least: u64, greatest: u64, n: u64) -> bool
    ensures { result ≡ is_outside least greatest n }
{
    n < least || n > greatest
}

/// The law of the accessors: what they give makes up the same limits.
fn law(limits: &Limits) -> Limits
    ensures { result ≡ limits.now }
{
    Limits {
        clients: limits.clients(),
        pages: limits.pages(),
        page_size: limits.page_size() as u32,
        slots: limits.slots() as u16,
        kin: limits.kin() as u16,
        kout: limits.kout() as u16,
        keep_write: limits.keep_write(),
    }
}
