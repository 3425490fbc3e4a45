//! 2Q in both forms: worked cases, the greatest limits, refused growths.

use Step::{Fix, Forget, Full, Gone, Refer, Stand};
use cb_page::{Limits, PageNo, PageSet};
use cb_twoq::{ChooseFault, Chooser, Lists, PlainTwoQ, TwoQ, run_refs};
use std::alloc::{AllocError, Global};
use std::test::Fail;

/// A chooser whose lists can be copied.
trait TwoForms: Chooser {
    fn copied(&self, alloc: Global) -> Result<Lists, AllocError>;
}

impl TwoForms for TwoQ {
    fn copied(&self, alloc: Global) -> Result<Lists, AllocError> {
        self.lists(alloc)
    }
}

impl TwoForms for PlainTwoQ {
    fn copied(&self, alloc: Global) -> Result<Lists, AllocError> {
        self.lists(alloc)
    }
}

/// A call at a page below 16, with what it has to answer, or what is on the lists then.
#[derive(Clone, Copy)]
enum Step {
    /// References that let no page go.
    Refer(u32),
    /// A reference, and the page let go.
    Gone(u32, u32),
    /// A reference that finds each slot with a fixed page.
    Full(u32),
    Fix(u32),
    Forget(u32),
    /// A1in, Am and A1out, newest first.
    Stand(&'static [u32], &'static [u32], &'static [u32]),
}

/// Whether a list is of these pages.
fn are(pages: &Vec<PageNo>, wanted: &[u32]) -> bool {
    pages.len() == wanted.len()
        && pages
            .iter()
            .zip(wanted)
            .all(|(page, number)| page.get() == *number)
}

/// Whether a step answers what it has to.
fn holds<Q: TwoForms>(
    alloc: Global,
    chooser: &mut Q,
    fixed: &mut PageSet,
    step: Step,
) -> Result<bool, AllocError> {
    match step {
        Refer(page) => Ok(matches!(chooser.reference(PageNo::new(page % 16), fixed), Ok(None))),
        Gone(page, other) => {
            let answer = chooser.reference(PageNo::new(page % 16), fixed);
            Ok(matches!(answer, Ok(Some(gone)) if gone.get() == other))
        }
        Full(page) => {
            let answer = chooser.reference(PageNo::new(page % 16), fixed);
            Ok(matches!(answer, Err(ChooseFault::Full)))
        }
        Fix(page) => {
            if (page as usize) < fixed.pages() {
                fixed.insert(PageNo::new(page % 16));
            }
            Ok(true)
        }
        Forget(page) => {
            chooser.forget(PageNo::new(page % 16));
            Ok(true)
        }
        Stand(a1in, am, a1out) => {
            let lists = chooser.copied(alloc)?;
            Ok(are(&lists.a1in, a1in) && are(&lists.am, am) && are(&lists.a1out, a1out))
        }
    }
}

/// Whether each step answers what it has to.
fn each_holds<Q: TwoForms>(
    alloc: Global,
    chooser: &mut Q,
    fixed: &mut PageSet,
    steps: &[Step],
) -> Result<bool, AllocError> {
    for &step in steps {
        if !holds(alloc, chooser, fixed, step)? {
            return Ok(false);
        }
    }
    Ok(true)
}

/// The same from empty lists on.
fn all_hold<Q: TwoForms>(
    alloc: Global,
    limits: &Limits,
    steps: &[Step],
) -> Result<bool, AllocError> {
    let mut chooser = Q::make(alloc, limits)?;
    let mut fixed = PageSet::new(alloc, 16)?;
    each_holds(alloc, &mut chooser, &mut fixed, steps)
}

/// The same on both forms.
fn both_hold(alloc: Global, slots: u64, kin: u64, kout: u64, steps: &[Step]) -> Result<bool, Fail> {
    let limits = Limits::new(1, 16, 16, slots, kin, kout)?;
    let indexed = all_hold::<TwoQ>(alloc, &limits, steps)?;
    let plain = all_hold::<PlainTwoQ>(alloc, &limits, steps)?;
    Ok(indexed && plain)
}

static FORGOTTEN_BY_A1OUT: [Step; 10] = [
    Refer(1),
    Refer(2),
    Refer(3),
    Refer(4),
    Gone(5, 1),
    Gone(1, 2),
    Gone(6, 3),
    Gone(7, 4),
    Gone(2, 5),
    Stand(&[2, 7, 6], &[1], &[5, 4]),
];

#[test]
fn page_forgotten_by_a1out(rt: HostRuntime) -> Result<(), Fail> {
    assert!(rt; both_hold(rt.alloc(), 4, 1, 2, &FORGOTTEN_BY_A1OUT)?);
    Ok(())
}

static NOT_REMEMBERED: [Step; 6] = [
    Refer(1),
    Refer(2),
    Gone(3, 1),
    Gone(1, 2),
    Gone(4, 1),
    Stand(&[4, 3], &[], &[2]),
];

#[test]
fn am_victim_not_remembered(rt: HostRuntime) -> Result<(), Fail> {
    assert!(rt; both_hold(rt.alloc(), 2, 1, 1, &NOT_REMEMBERED)?);
    Ok(())
}

static PASSED_OVER: [Step; 5] = [
    Refer(1),
    Refer(2),
    Fix(1),
    Gone(3, 2),
    Stand(&[3, 1], &[], &[2]),
];

#[test]
fn fixed_page_passed_over(rt: HostRuntime) -> Result<(), Fail> {
    assert!(rt; both_hold(rt.alloc(), 2, 1, 1, &PASSED_OVER)?);
    Ok(())
}

static FORGET_AND_FULL: [Step; 14] = [
    Refer(1),
    Refer(2),
    Gone(3, 1),
    Stand(&[3, 2], &[], &[1]),
    Forget(2),
    Stand(&[3], &[], &[1]),
    Refer(1),
    Stand(&[3], &[1], &[]),
    Fix(1),
    Gone(4, 3),
    Stand(&[4], &[1], &[3]),
    Fix(4),
    Full(3),
    Stand(&[4], &[1], &[3]),
];

#[test]
fn forget_and_full(rt: HostRuntime) -> Result<(), Fail> {
    assert!(rt; both_hold(rt.alloc(), 2, 1, 1, &FORGET_AND_FULL)?);
    Ok(())
}

/// Whether two choosers' lists are the same.
fn are_alike(left: &Lists, right: &Lists) -> bool {
    left.a1in.as_slice() == right.a1in.as_slice()
        && left.am.as_slice() == right.am.as_slice()
        && left.a1out.as_slice() == right.a1out.as_slice()
}

/// So many references.
const COUNT: u32 = 5120;

/// Each page of the greatest store, and then as many as there are slots once more, with no page
/// fixed.
fn all_and_more(alloc: Global) -> Result<Vec<(PageNo, PageSet)>, AllocError> {
    let mut references = Vec::new(alloc);
    for i in 0..COUNT {
        let fixed = PageSet::new(alloc, 4096)?;
        references.push((PageNo::new(i % 4096), fixed))?;
    }
    Ok(references)
}

/// Whether all references are answered, and no slot is free after.
fn are_all_answered<Q: TwoForms>(
    alloc: Global,
    chooser: &mut Q,
    references: &[(PageNo, PageSet)],
) -> Result<bool, AllocError> {
    let answers = run_refs(alloc, chooser, references)?;
    let lists = chooser.copied(alloc)?;
    let in_slots = lists.a1in.len().saturating_add(lists.am.len());
    let answered = answers.iter().filter(|answer| answer.is_ok()).count();
    Ok(in_slots == 1024 && answered == COUNT as usize)
}

/// The same of a new chooser, by these references.
fn takes_all<Q: TwoForms>(alloc: Global, limits: &Limits) -> Result<bool, AllocError> {
    let references = all_and_more(alloc)?;
    let mut chooser = Q::make(alloc, limits)?;
    are_all_answered(alloc, &mut chooser, &references)
}

/// At the greatest limits no call wants memory.
#[test]
fn greatest_limits(rt: HostRuntime) -> Result<(), Fail> {
    let limits = Limits::new(32, 4096, 4096, 1024, 1023, 4096)?;
    assert!(rt; takes_all::<TwoQ>(rt.alloc(), &limits)?);
    assert!(rt; takes_all::<PlainTwoQ>(rt.alloc(), &limits)?);
    Ok(())
}

/// Whether nothing changed between two copies of the lists, as far as there are both.
fn is_kept(before: &Result<Lists, AllocError>, after: &Result<Lists, AllocError>) -> bool {
    match (before, after) {
        (Ok(left), Ok(right)) => are_alike(left, right),
        _ => true,
    }
}

/// Refers to a page, and once more where memory was wanted: whether the answer is right, and
/// nothing changed before.
fn goes_on<Q: TwoForms>(
    alloc: Global,
    chooser: &mut Q,
    page: PageNo,
    fixed: &PageSet,
    goes: bool,
) -> bool {
    let before = chooser.copied(alloc);
    let mut answer = chooser.reference(page, fixed);
    if answer == Err(ChooseFault::Memory) {
        if !is_kept(&before, &chooser.copied(alloc)) {
            return false;
        }
        answer = chooser.reference(page, fixed);
    }
    matches!(answer, Ok(gone) if gone.is_some() == goes)
}

/// References, and whether each lets a page go.
static GO_ON: [(u32, bool); 8] = [
    (1, false),
    (2, false),
    (3, true),
    (1, true),
    (4, true),
    (3, false),
    (1, true),
    (3, true),
];

/// Whether the chooser goes on so.
fn each_goes_on<Q: TwoForms>(alloc: Global, chooser: &mut Q, fixed: &PageSet) -> bool {
    for &(page, goes) in &GO_ON {
        if !goes_on(alloc, chooser, PageNo::new(page % 16), fixed, goes) {
            return false;
        }
    }
    true
}

/// Whether a chooser of two slots goes on so, as far as there is memory for it.
fn all_go_on<Q: TwoForms>(alloc: Global, limits: &Limits) -> Result<bool, AllocError> {
    let fixed = PageSet::new(alloc, 16)?;
    let mut chooser = Q::make(alloc, limits)?;
    Ok(each_goes_on(alloc, &mut chooser, &fixed))
}

/// With the Nth growth refused: what was refused is as before, and goes on as if nothing had been
/// refused.
#[test]
fn refused_growths_change_nothing(rt: HostRuntime) -> Result<(), Fail> {
    let limits = Limits::new(1, 16, 16, 2, 1, 1)?;
    assert!(rt; all_go_on::<TwoQ>(rt.alloc(), &limits).unwrap_or(true));
    Ok(())
}
