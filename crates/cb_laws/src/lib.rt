//! Laws of the protocol beside what it promises: of a server that restarts, and of the pages and
//! rows within one life of a server.
//!
//! A life is the time from one start of the server to the next. `cb_protocol` has the world of one
//! life and its promise (`specs/World`, `specs/Headline`), and the world over all lives and its own
//! (`specs/LivesWorld`, `specs/Lives`). The laws here are about these definitions.
//!
//! Over all lives they say what each event leaves and sends, what stands whatever comes after, that
//! each event can happen, and how the server of a new life arises. Within one life they say who has
//! a page that is being written, which version a row has, and when the copy of a new row is sent.
//!
//! The crate has no code: each function carries laws in its contract. Its examples of several lives
//! are computed by the definitions (`proofs/WorkedLives`).
#![tactic(auto)]

ghost use Rattle.cb_laws.specs.LifeLaws.{FloorsInRange, IncarnationsStayInRange};
ghost use Rattle.cb_laws.specs.LifeLaws.{LivesAreReached, RangesGiveFloors};
ghost use Rattle.cb_laws.specs.LivesEvents.{DiskStandsForEver, EventsKeepTheirLife};
ghost use Rattle.cb_laws.specs.LivesEvents.{EventsSendInTheirLife, LivesGoOn};
ghost use Rattle.cb_laws.specs.LivesEvents.{RestartsLeaveTheDisk, ServersHaveLimits};
ghost use Rattle.cb_laws.specs.Outcomes.{ClientsAreToldTheTruth, OutcomesNameTransactions};
ghost use Rattle.cb_protocol.specs.Basics.{Limits};
ghost use Rattle.cb_protocol.specs.Server.{DeadlockTest};
ghost use Rattle.cb_laws.specs.NewRows.{NewRowsAreSent};
ghost use Rattle.cb_laws.specs.RowVersions.{CopiesOnTheirWay, RowVersions, ServersRowVersions};
ghost use Rattle.cb_laws.specs.WrittenPages.{LastWritesStand, WritesOnTheirWay, WrittenPages};
ghost use Rattle.cb_protocol.specs.Laws.{Always};

/// What each event leaves, and what stands for ever.
///
/// A restart of the server leaves everything that was sent, the clients, the transcript, and of the
/// commits exactly those on disk. The new server knows nothing of any client but the floor. From
/// the floor on, nothing but Hellos was sent yet.
///
/// An event within a life is an event of the world of one life. It leaves the floor, the opening
/// store and former commits as they were. It puts new commits in front of those of the life; each
/// was sent by an incarnation that the life had welcomed before.
///
/// What is on disk stands, whatever comes after: each Done that was sent, and each outcome that a
/// client was told, names a commit that counts.
///
/// At each moment the server can restart, with any floor above the present one and above each
/// incarnation that it admitted, and any other event can happen.
pub fn lives_keep_the_disk()
    ensures restarts { (L : Limits) (cycle : DeadlockTest) → RestartsLeaveTheDisk L cycle }
    ensures keeps { (L : Limits) (cycle : DeadlockTest) → EventsKeepTheirLife L cycle }
    ensures for_ever { (L : Limits) (cycle : DeadlockTest) → DiskStandsForEver L cycle }
    ensures goes_on { (L : Limits) (cycle : DeadlockTest) → LivesGoOn L cycle }
{}

/// What each event within a life sends. A client sends as its present incarnation. The server sends
/// to incarnations of its own life alone. It answers each Hello of the current incarnation or a
/// greater one by a Welcome at once, so that the first client that comes to the floor is welcomed.
/// It doesn't answer an older Hello, and answers no other message by a Welcome.
pub fn lives_speak_to_their_own()
    ensures sends { (L : Limits) (cycle : DeadlockTest) → EventsSendInTheirLife L cycle }
{}

/// A client's last outcome tells how the transaction that it names ended: by a Done or an AbortNow
/// with the very number of the transaction, or by the client's own drop. The outcome is true over
/// all lives, whether pages were written or not. If the client was told that the transaction
/// committed, its commit, by that number, is among those that count. If it was told otherwise, none
/// is. The transaction is the one whose operations the transcript has under that number.
pub fn clients_are_told_the_truth()
    ensures names { (L : Limits) → OutcomesNameTransactions L }
    ensures told { (L : Limits) (cycle : DeadlockTest) → ClientsAreToldTheTruth L cycle }
{}

/// A new server becomes the server of a new life by a Hello of the life's floor from each client.
/// Whatever holds of every server that is reached, by honest messages or not, therefore holds of
/// that server and of what it becomes.
pub fn lives_begin_as_servers_do()
    ensures reached { LivesAreReached }
{}

/// All lives have the same limits: at each moment the server has the clients and pages that they
/// say, and keeps write permission if they say so. Each client's incarnation is from 1 to 2^62 - 1.
/// Suppose that each life has a range of 2^32 incarnations, and that the server admitted none
/// beyond the present life's. Then the floor of each later life is a new one. For the lives from
/// the second to number 2^30 - 1 the floor is an incarnation. Nobody comes to a floor above 2^62 -
/// 1: then nothing commits any more, and what is on disk stands.
pub fn lives_stay_in_range()
    ensures limits { (L : Limits) (cycle : DeadlockTest) → ServersHaveLimits L cycle }
    ensures incarnations { (L : Limits) (cycle : DeadlockTest) → IncarnationsStayInRange L cycle }
    ensures floors { RangesGiveFloors }
    ensures range { FloorsInRange }
{}

/// Take a page that a client's open or committing transaction wrote. Until its commit is applied,
/// no other client has a copy of the page, and no commit has written it since it was read. From
/// then on, until the client's Done comes, the store has the bytes that the transaction wrote, and
/// nobody else may write the page. While a Commit is on its way, nobody but its incarnation has a
/// copy of a page that it writes, even after its client restarted. At any server, whatever messages
/// come, a commit's write of a page stands until a later commit writes that page.
pub fn written_pages_are_alone()
    ensures law { Always (λ opening world. WrittenPages world) }
    ensures on_their_way { Always (λ opening world. WritesOnTheirWay world) }
    ensures stands { LastWritesStand }
{}

/// What the version of a row is, which the server doesn't keep. Each row was sent to its client as
/// a Granted, and each Granted of a row's grant has the page's present version and bytes in the
/// store. The exception is a page that the client itself wrote since, by that grant; then no other
/// client wrote it later. This is so at any server, whatever messages come, and in every world. A
/// copy on its way that a client would take is always of a row that stands, with the store's
/// version and bytes.
pub fn rows_have_the_stores_version()
    ensures servers { ServersRowVersions }
    ensures law { Always (λ opening world. RowVersions world.server world.packets) }
    ensures on_their_way { Always (λ opening world. CopiesOnTheirWay world) }
{}

/// If a server has a row after an input, whatever came, it had the row before, or the input sends
/// the row's copy. A client's new copy is therefore never left for a later step.
pub fn new_rows_are_sent_at_once()
    ensures law { NewRowsAreSent }
{}
