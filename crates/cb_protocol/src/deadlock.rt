//! Laws of waiting: the deadlock test, that no step leaves a deadlock, who is doomed, and which
//! pages need settling.

ghost use Rattle.cb_protocol.specs.Deadlock.{CycleTestExact, NoCycleStays, OneAskAlways};
ghost use Rattle.cb_protocol.specs.Deadlock.{DoomedOnlyOnCycle, DoomedHaveNoAsk};
ghost use Rattle.cb_protocol.specs.Deadlock.{SettledStaysSettled, UnchangedNeedsNoSettling};
ghost use Rattle.cb_protocol.specs.Deadlock.{SettlingEnds, EmptyNeedsNoSettling, EmptyPassedOver};
ghost use Rattle.cb_protocol.specs.Deadlock.{ListedAreEnough, PermissionsLive, PlainHoldsUp};

/// The deadlock test is exact: at a server whose asks name clients and pages that exist, it is true
/// of exactly the clients that wait, in one or more steps, for themselves.
pub fn cycle_test_is_exact()
    ensures exact { CycleTestExact }
{}

/// After every step of the server no client lies on a cycle of waits, whatever messages in range
/// came, honest or not. This rests on an invariant: a client has at most one ask in all queues, and
/// asks name clients and pages that exist.
pub fn no_cycle_stays()
    ensures no_cycle { NoCycleStays }
    ensures one_ask { OneAskAlways }
{}

/// A client that becomes doomed lay on a cycle just before the server removed its ask. While its
/// transaction is doomed, a client has no ask.
pub fn doomed_only_on_a_cycle()
    ensures dooms { DoomedOnlyOnCycle }
    ensures no_ask { DoomedHaveNoAsk }
{}

/// After every step of the server, settling all pages once more does nothing. A message that
/// changes nothing, such as an ignored one or a repeated ask, is therefore met by its direct answer
/// alone.
pub fn settled_stays_settled()
    ensures stays { SettledStaysSettled }
    ensures unchanged { UnchangedNeedsNoSettling }
{}

/// Only pages with asks need settling, at any server. A page with an empty queue takes no step, so
/// settling any rising list that has each page with an ask settles all pages. A page with n asks is
/// settled in at most n + 1 decisions.
pub fn only_pages_with_asks_are_settled()
    ensures empty { EmptyNeedsNoSettling }
    ensures passed_over { EmptyPassedOver }
    ensures listed { ListedAreEnough }
    ensures ends { SettlingEnds }
{}

/// Without kept write permission every permission belongs to its holder's live transaction. The
/// first ask for a page is therefore held up by exactly the write holder and, if it asks to write,
/// each client that uses the page.
pub fn permissions_are_live_unless_kept()
    ensures live { PermissionsLive }
    ensures holds_up { PlainHoldsUp }
{}
