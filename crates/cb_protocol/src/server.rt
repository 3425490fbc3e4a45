//! Laws of a server alone, at each message, honest or not: who is granted a page, which commits are
//! applied, what a Hello leaves.

ghost use Rattle.cb_protocol.specs.AskLaws.{AsksKeepTheirOrder, FirstAsksAreMet, NoneWaitsInVain};
ghost use Rattle.cb_protocol.specs.CommitLaws.{AppliedWhereItMay, DoneFromDiskAlone};
ghost use Rattle.cb_protocol.specs.CommitLaws.{NoOtherApplies};
ghost use Rattle.cb_protocol.specs.HelloLaws.{GreaterHelloStartsAnew};
ghost use Rattle.cb_protocol.specs.LeavingLaws.{AsksAreAnswered};

/// A Commit is applied exactly if it is of the current incarnation, its transaction neither ended
/// nor is doomed, and that transaction may write its pages. No other input applies a commit.
pub fn commit_applied_where_it_may_be()
    ensures exact { AppliedWhereItMay }
    ensures no_other { NoOtherApplies }
{}

/// A Done is sent only for a commit that is on disk, and only the disk says which are.
pub fn done_comes_from_disk_alone()
    ensures law { DoneFromDiskAlone }
{}

/// A Hello of a greater incarnation leaves its client no row, permission, mark, ask, doom or
/// transaction, and is welcomed.
pub fn greater_hello_starts_anew()
    ensures law { GreaterHelloStartsAnew }
{}

/// Grants and permissions go to the first asks alone, as soon as they may have them and no sooner,
/// and are sent at once. After every step no first ask could have what it waits for.
pub fn first_asks_are_met()
    ensures in_order { FirstAsksAreMet }
    ensures in_time { NoneWaitsInVain }
{}

/// Asks for a page wait in the order in which they came: one that enters goes behind all that wait,
/// and those that stay keep their order.
pub fn asks_keep_their_order()
    ensures law { AsksKeepTheirOrder }
{}

/// No ask is forgotten. At every input an ask that waits stays in its queue, or is met by a message
/// that says so, or its client is told that the transaction is aborted, or that transaction ends.
pub fn no_ask_is_forgotten()
    ensures law { AsksAreAnswered }
{}
