//! What no clause of the pool says: that each call succeeds, and that the chooser in it is the one
//! that was handed in; and a caller that hits and peeks.

ghost use Rattle.std.specs.Prelude.{◌≡◌, ◌<◌, ◌≤◌, length, true, IfOk, []};
ghost use Rattle.cb_pool.specs.PoolState.{empty_pool, referred};

use crate::pool::{Called, Recorder};
use cb_page::{Limits, Page, PageNo, PageSet};
use cb_pool::{Pool, PoolFault};
use cb_test_parts::draw::Draw;
use cb_test_parts::stores::page_of;
use cb_twoq::{Chooser, TwoQ};
use std::alloc::{AllocError, Global};
use std::test::Fail;

/// A caller of the pool. It hits a page and, once that loan is over, peeks at it: it still knows
/// all that it knew of the pool, so that both loans are known to be as long.
fn hit_then_peek<Q: Chooser>(pool: &mut Pool<Q>, page: PageNo) -> bool
    ensures kept { pool.new ≡ referred pool.old page }
    ensures same { result ≡ true }
{
    let hit = match pool.hit(page) {
        Some(bytes) => bytes.len(),
        None => 0,
    };
    let peeked = match pool.peek(page) {
        Some(bytes) => bytes.len(),
        None => 0,
    };
    hit == peeked
}

/// Installs a page of sixteen bytes that are all the same.
fn put<Q: Chooser>(
    alloc: Global,
    pool: &mut Pool<Q>,
    page: PageNo,
    byte: u8,
) -> Result<Option<PageNo>, PoolFault>
    requires page { page < length pool.old.fixed }
    requires size { pool.old.page_size ≡ 16 }
    ensures pages { length pool.new.fixed ≡ length pool.old.fixed }
    ensures size { pool.new.page_size ≡ 16 }
{
    match page_of(alloc, byte, 16) {
        Ok(bytes) => pool.install(page, bytes),
        Err(AllocError) => Err(PoolFault::Memory),
    }
}

/// Whether that install lets this page go; where a growth was refused it is made again, and has to
/// answer as if nothing had been refused.
fn puts<Q: Chooser>(
    alloc: Global,
    pool: &mut Pool<Q>,
    page: PageNo,
    byte: u8,
    goes: Option<PageNo>,
) -> bool
    requires page { page < length pool.old.fixed }
    requires size { pool.old.page_size ≡ 16 }
    ensures pages { length pool.new.fixed ≡ length pool.old.fixed }
    ensures size { pool.new.page_size ≡ 16 }
{
    let mut gone = put(alloc, pool, page, byte);
    if gone == Err(PoolFault::Memory) {
        gone = put(alloc, pool, page, byte);
    }
    gone == Ok(goes)
}

/// Overwrites a page, if it is here.
fn write<Q: Chooser>(pool: &mut Pool<Q>, page: PageNo, byte: u8)
    requires { pool.old.page_size ≡ 16 }
    ensures pages { length pool.new.fixed ≡ length pool.old.fixed }
    ensures size { pool.new.page_size ≡ 16 }
{
    if pool.peek(page).is_some() {
        pool.write(page, &[byte; 16]);
    }
}

/// Whether each call of a pool of two slots answers as it should: page 1 is fixed, and stays.
fn does_each_call<Q: Chooser>(alloc: Global, pool: &mut Pool<Q>) -> bool
    requires pages { 8 ≤ length pool.old.fixed }
    requires size { pool.old.page_size ≡ 16 }
{
    let (one, two, three) = (PageNo::new(1), PageNo::new(2), PageNo::new(3));
    let came = puts(alloc, pool, one, 7, None) && puts(alloc, pool, two, 8, None);
    pool.fix(one);
    let went = pool.room() && puts(alloc, pool, three, 9, Some(two)) && hit_then_peek(pool, one);
    write(pool, one, 3);
    let read = matches!(pool.hit(one), Some([3, ..]));
    pool.remove(three);
    let removed = pool.peek(three).is_none();
    pool.unfix_all();
    came && went && read && removed
}

/// The same of a new pool.
fn new_one_does_each_call<Q: Chooser>(alloc: Global, limits: &Limits) -> Result<bool, AllocError>
    requires pages { 8 ≤ limits.now.pages }
    requires size { limits.now.page_size ≡ 16 }
{
    let mut pool = Pool::new(alloc, Q::make(alloc, limits)?, limits)?;
    Ok(does_each_call(alloc, &mut pool))
}

/// Passes also where memory runs out: an allocation may be made to fail.
#[test]
fn calls_of_a_pool(rt: HostRuntime) -> Result<(), Fail> {
    let limits = Limits::new(1, 8, 16, 2, 1, 4)?;
    assert!(rt; new_one_does_each_call::<TwoQ>(rt.alloc(), &limits).unwrap_or(true));
    Ok(())
}

/// A drawn call, and what it has to call the chooser for: an install refers, a hit does if the page
/// is here, whether or not it is fixed and the pool is full, and a removal has the page forgotten.
fn drawn_call<Q: Chooser>(alloc: Global, pool: &mut Pool<Q>, draw: &mut Draw) -> Option<Called>
    requires pages { 8 ≤ length pool.old.fixed }
    requires size { pool.old.page_size ≡ 16 }
    ensures pages { length pool.new.fixed ≡ length pool.old.fixed }
    ensures size { pool.new.page_size ≡ 16 }
{
    let page = PageNo::new(draw.below(8));
    match draw.below(20) {
        0 => pool.fix(page),
        1 => pool.unfix_all(),
        2 | 3 => {
            pool.remove(page);
            return Some(Called::Forget(page));
        }
        4 | 5 => {
            let _asked = pool.room() && pool.peek(page).is_some();
        }
        6 | 7 => write(pool, page, 9),
        8..=13 => return pool.hit(page).map(|_| Called::Reference(page)),
        _ => {
            let _gone = put(alloc, pool, page, 7);
            return Some(Called::Reference(page));
        }
    }
    None
}

/// Whether three thousand drawn calls call the chooser for those that have to, and for no other,
/// after the one on its list.
fn are_recorded<Q: Chooser>(
    alloc: Global,
    pool: &mut Pool<Recorder<Q>>,
    noted: Called,
) -> Result<bool, AllocError>
    requires pages { 8 ≤ length pool.old.fixed }
    requires size { pool.old.page_size ≡ 16 }
{
    let mut wanted = Vec::new(alloc);
    wanted.push(noted)?;
    let mut draw = Draw::new(7);
    for _turn in 0..3000 {
        if let Some(call) = drawn_call(alloc, pool, &mut draw) {
            wanted.push(call)?;
        }
    }
    Ok(pool.chooser().calls() == wanted.as_slice())
}

/// A chooser that keeps the list of its calls, and has one on it.
fn recorder<Q: Chooser>(
    alloc: Global,
    limits: &Limits,
    noted: Called,
) -> Result<Recorder<Q>, AllocError>
    ensures members { IfOk result (λ recorder. Q.members recorder ≡ []) }
    ensures slots { IfOk result (λ recorder. Q.slots recorder ≡ limits.now.slots) }
{
    let mut recorder = Recorder::<Q>::make(alloc, limits)?;
    recorder.note(noted);
    Ok(recorder)
}

/// The same from a new pool on, and from a restart with another chooser. Page 0 is handed in there,
/// which isn't here.
fn calls_are_recorded<Q: Chooser>(alloc: Global, limits: &Limits) -> Result<bool, AllocError>
    requires pages { limits.now.pages ≡ 8 }
    requires size { limits.now.page_size ≡ 16 }
{
    let (first, second) = (
        Called::Forget(PageNo::new(5)),
        Called::Forget(PageNo::new(6)),
    );
    let mut pages = PageSet::new(alloc, 8)?;
    pages.insert(PageNo::new(0));
    let mut pool = Pool::new(alloc, recorder::<Q>(alloc, limits, first)?, limits)?;
    let mut again = Pool::new(alloc, recorder::<Q>(alloc, limits, first)?, limits)?;
    again.restart(recorder::<Q>(alloc, limits, second)?, &pages);
    Ok(are_recorded(alloc, &mut pool, first)? && are_recorded(alloc, &mut again, second)?)
}

/// The chooser that was handed in, to a new pool or to a restart, is called for the calls that have
/// to, and for no other.
#[test]
fn calls_of_the_chooser(rt: HostRuntime) -> Result<(), Fail> {
    let limits = Limits::new(1, 8, 16, 4, 1, 4)?;
    assert!(rt; calls_are_recorded::<TwoQ>(rt.alloc(), &limits)?);
    Ok(())
}

/// A new pool over a new chooser, whatever the chooser.
fn pool_of<Q: Chooser>(alloc: Global, limits: &Limits) -> Result<Pool<Q>, AllocError>
    ensures { IfOk result (λ pool.
        pool ≡ empty_pool limits.now.slots limits.now.pages limits.now.page_size) }
{
    Pool::new(alloc, Q::make(alloc, limits)?, limits)
}

/// Whether a page is taken in.
fn takes_in<Q: Chooser>(pool: &mut Pool<Q>, page: PageNo, bytes: Page) -> bool
    requires pages { length pool.old.fixed ≡ 4096 }
    requires size { pool.old.page_size ≡ 16 }
    requires bytes { length bytes ≡ 16 }
    ensures pages { length pool.new.fixed ≡ 4096 }
    ensures size { pool.new.page_size ≡ 16 }
{
    match pool.install(page, bytes) {
        Ok(_) => true,
        Err(_) => false,
    }
}

/// Whether each page of the greatest store is taken in.
fn takes_all<Q: Chooser>(alloc: Global, pool: &mut Pool<Q>) -> Result<bool, AllocError>
    requires pages { length pool.old.fixed ≡ 4096 }
    requires size { pool.old.page_size ≡ 16 }
    ensures pages { length pool.new.fixed ≡ 4096 }
    ensures size { pool.new.page_size ≡ 16 }
{
    for page in 0..4096u32 {
        let bytes = page_of(alloc, 1, 16)?;
        if !takes_in(pool, PageNo::new(page), bytes) {
            return Ok(false);
        }
    }
    Ok(true)
}

/// Whether a pool of the greatest limits takes in each page twice.
fn takes_all_twice<Q: Chooser>(alloc: Global) -> Result<bool, AllocError> {
    match Limits::new(32, 4096, 16, 1024, 1023, 4096) {
        Ok(limits) => {
            let mut pool = pool_of::<Q>(alloc, &limits)?;
            Ok(takes_all(alloc, &mut pool)? && takes_all(alloc, &mut pool)?)
        }
        Err(_) => Ok(false),
    }
}

/// At the greatest limits no call wants memory. Great pages are in `greatest_client`.
#[test]
fn greatest_pool(rt: HostRuntime) -> Result<(), Fail> {
    assert!(rt; takes_all_twice::<TwoQ>(rt.alloc())?);
    Ok(())
}
