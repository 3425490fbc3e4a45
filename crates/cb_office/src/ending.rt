//! Why a run ended before all was done.
ghost use Rattle.std.specs.Prelude.{◌≡◌, Some, None};
ghost use Rattle.cb_office.specs.Outcomes.{line_of, lower, status_of};

use std::fmt;
use std::marker::{Model, PhantomData};

/// Why a run ended before all was done. The text is its line on the standard error.
#[derive(Clone, Copy, Debug, PartialEq, Eq)]
pub enum EarlyEnding {
    /// The tables are of another shape.
    Shape,
    /// The database refused.
    Store,
    /// No number is left.
    Exhausted,
    /// A worker had another fault.
    Worker,
    /// Memory was refused, or no thread could be made.
    Memory,
}

impl EarlyEnding {
    /// The program's status.
    pub fn status(self) -> u8
        ensures { result ≡ status_of self }
    {
        match self {
            EarlyEnding::Memory => 4,
            EarlyEnding::Shape
            | EarlyEnding::Store
            | EarlyEnding::Exhausted
            | EarlyEnding::Worker => 3,
        }
    }
}

impl fmt::Display for EarlyEnding {
    ghost output = { λ ending. Some (line_of ending) };

    fn fmt<W: fmt::Write>(&self, f: &mut fmt::Formatter<W>) -> fmt::Result {
        match self {
            EarlyEnding::Shape => write!(f, "store: Shape"),
            EarlyEnding::Store => write!(f, "store: Store"),
            EarlyEnding::Exhausted => write!(f, "store: Exhausted"),
            EarlyEnding::Worker => write!(f, "worker: Fault"),
            EarlyEnding::Memory => write!(f, "memory"),
        }
    }
}

/// How a client's part of a run ended.
#[derive(Clone, Copy)]
pub struct ClientEnding {
    pub client: u16,
    pub ending: EarlyEnding,
}

/// Says that a client's ending was noted in its run's [`FirstEnding`]. Only [`FirstEnding::note`]
/// makes one, and nobody can copy it. In contracts it is that ending.
#[derive(Drop)]
pub struct Noted<N> {
    told: ClientEnding,
    run: PhantomData<N>,
}

impl<N> Model for Noted<N> {
    ghost use Rattle.cb_office.specs.declared.ending.ClientEnding.{ClientEnding};

    ghost Value = { ClientEnding };

    ghost view = { λ noted. noted.told };
}

impl<N> Noted<N> {
    /// That ending was noted.
    fn of(client: u16, ending: EarlyEnding) -> Noted<N>
        ensures { result ≡ record { client = client; ending = ending } }
    {
        let told = ClientEnding { client, ending };
        let run = PhantomData;
        Noted { told, run }
    }

    /// Which ending it was.
    pub fn told(&self) -> ClientEnding
        ensures { result ≡ self.now }
    {
        self.told
    }
}

/// The ending of the lowest client of a run that has one. It holds the run's name, a value of some
/// type `N`. Code that is generic over `N` can't make such a value, and so can't make a
/// `FirstEnding` of its own: it notes in the one that it was lent.
#[derive(Drop)]
pub struct FirstEnding<N> {
    pub told: Option<ClientEnding>,
    run: N,
}

impl<N> FirstEnding<N> {
    /// The run of this name, of which nothing was noted yet.
    pub fn none(run: N) -> FirstEnding<N>
        ensures { result.told ≡ None }
    {
        FirstEnding { told: None, run }
    }

    /// Notes how a client's part ended, unless a lower client's is noted.
    pub fn note(&mut self, client: u16, ending: EarlyEnding) -> Noted<N>
        ensures lowest { self.new.told
            ≡ lower self.old.told (record { client = client; ending = ending }) }
        ensures noted { result ≡ record { client = client; ending = ending } }
    {
        if let Some(told) = self.told {
            if told.client <= client {
                return Noted::of(client, ending);
            }
        }
        self.told = Some(ClientEnding { client, ending });
        Noted::of(client, ending)
    }
}
