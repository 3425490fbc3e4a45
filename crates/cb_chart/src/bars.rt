//! When clients had copies that they could read.
ghost use Rattle.std.specs.Prelude.{◌≡◌, ◌≤◌, ℕ, ◌∷◌, ◌++◌, [], List, map, length, IfOk, IsTrue};
ghost use Rattle.std.specs.Prelude.{◌↔◌};
ghost use Rattle.std.specs.List.{Contains, list_any};
ghost use Rattle.cb_chart.specs.Bars.{AreBars, Begins, goes_on, lasts, lengthened, same_copy};
ghost use Rattle.cb_chart.specs.declared.bars.ClientCopy.{ClientCopy as CopyData};

use cb_page::{ClientNo, PageNo};
use std::alloc::{AllocError, Global};

/// A copy of a page that a client can read.
#[derive(Clone, Copy, Debug, PartialEq, Eq)]
pub struct ClientCopy {
    pub client: ClientNo,
    pub page: PageNo,
    /// Whether its transaction may write the page, too.
    pub may_write: bool,
}

impl ClientCopy {
    /// Whether the other is of the same client and page, and as much is permitted.
    fn is_same(&self, other: &ClientCopy) -> bool
        ensures { result ≡ same_copy self.now other.now }
    {
        self.client == other.client && self.page == other.page && self.may_write == other.may_write
    }
}

/// A bar in a client's lane: the client could read a copy after each of these events, and either
/// could write it after all of them or after none.
#[derive(Clone, Copy, Debug, PartialEq, Eq)]
pub struct Bar {
    pub copy: ClientCopy,
    pub first: u16,
    pub last: u16,
}

impl Bar {
    /// Whether it stands after that event as the last one so far, and is of that copy.
    fn lasts(&self, copy: &ClientCopy, event: u16) -> bool
        ensures { result ≡ lasts event copy.now self.now }
    {
        self.last == event && self.copy.is_same(copy)
    }

    /// Whether it stands after the event before that one, and its copy is still there.
    fn goes_on(&self, copies: &[ClientCopy], event: u16) -> bool
        ensures { result ≡ goes_on copies.now event self.now }
    {
        u32::from(self.last) + 1 == u32::from(event) && is_among(copies, &self.copy)
    }

    /// The bar after that event.
    fn lengthened(&self, copies: &[ClientCopy], event: u16) -> Bar
        ensures { result ≡ lengthened copies.now event self.now }
    {
        if !self.goes_on(copies, event) {
            return *self;
        }
        Bar {
            copy: self.copy,
            first: self.first,
            last: event,
        }
    }
}

/// Whether the copy is one of these.
fn is_among(copies: &[ClientCopy], copy: &ClientCopy) -> bool
    ensures { result ≡ list_any (λ other. same_copy other copy.now) copies.now }
{
    copies.iter().any(|other| other.is_same(copy))
}

/// Whether one of the bars is of that copy and lasts up to that event.
fn has_bar(bars: &[Bar], copy: &ClientCopy, event: u16) -> bool
    ensures { result ≡ list_any (lasts event copy.now) bars.now }
{
    bars.iter().any(|bar| bar.lasts(copy, event))
}

/// The bars once these are the copies after that event: those of the event before go on, and a new
/// one begins for each copy that has none. `AllocError` only if memory was refused.
pub(crate) fn go_on(
    alloc: Global,
    bars: &[Bar],
    copies: &[ClientCopy],
    event: u16,
) -> Result<Vec<Bar>, AllocError>
    ensures { IfOk result (λ longer. (sights : List (List CopyData)) → length sights ≡ event
        → AreBars sights bars.now → AreBars (sights ++ copies.now ∷ []) longer.items) }
{
    let mut longer = lengthen(alloc, bars, copies, event)?;
    begin(&mut longer, copies, event)?;
    Ok(longer)
}

/// The bars whose copy is still there after that event last up to it.
fn lengthen(
    alloc: Global,
    bars: &[Bar],
    copies: &[ClientCopy],
    event: u16,
) -> Result<Vec<Bar>, AllocError>
    ensures { IfOk result (λ longer. longer.items ≡ map (lengthened copies.now event) bars.now) }
{
    let mut longer = Vec::with_capacity(alloc, bars.len())?;
    for bar in bars {
        longer.push(bar.lengthened(copies, event))?;
    }
    Ok(longer)
}

/// A bar begins for each copy that has none after that event.
fn begin(bars: &mut Vec<Bar>, copies: &[ClientCopy], event: u16) -> Result<(), AllocError>
    ensures { IfOk result (λ _. Begins bars.old.items copies.now event bars.new.items) }
{
    for copy in copies {
        begin_one(bars, copy, event)?;
    }
    Ok(())
}

/// A bar begins for the copy, if it has none after that event.
fn begin_one(bars: &mut Vec<Bar>, copy: &ClientCopy, event: u16) -> Result<(), AllocError>
    ensures { IfOk result
        (λ _. Begins bars.old.items (copy.now ∷ []) event bars.new.items) }
{
    if has_bar(bars.as_slice(), copy, event) {
        return Ok(());
    }
    bars.push(Bar {
        copy: *copy,
        first: event,
        last: event,
    })?;
    Ok(())
}
