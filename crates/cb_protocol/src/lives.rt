//! The server restarts: what is promised of the world over all its lives. A life of the server is
//! from one start of it to the next. What holds of each event besides is in `cb_laws`.

ghost use Rattle.cb_protocol.specs.Basics.{Limits};
ghost use Rattle.cb_protocol.specs.Lives.{LivesKeepThePromise, OneLifeIsPromised, RunsAreOfOneLife};
ghost use Rattle.cb_protocol.specs.Server.{DeadlockTest};

/// At every moment the promise over all lives holds. It holds whatever is called, sent, lost,
/// repeated or reordered, whichever clients restart, however often the server restarts, and
/// whichever pages are let go; with kept write permission and without it; and whoever is picked as
/// the victim of a deadlock. Of the clients of the present life two readable copies agree, and a
/// writer is alone. The commits of former lives that were on disk, and all of the present life, are
/// a serial history, and the server's store is what it leaves. Each Done that was ever sent names
/// one of them. Only a client that the present life has welcomed commits in it. No message that was
/// ever sent is of an incarnation that its client hasn't had.
///
/// Without a restart of the server this is the promise of one life, which `callback_read` states.
pub fn lives_keep_the_promise()
    ensures promise { LivesKeepThePromise }
    ensures one_life { OneLifeIsPromised }
    ensures runs { (L : Limits) (cycle : DeadlockTest) → RunsAreOfOneLife L cycle }
{}
