//! Tries are let in, and end.
ghost use Rattle.std.specs.Prelude.{◌≡◌, MatchOption};
ghost use Rattle.std.specs.Option.{is_some};
ghost use Rattle.cb_admission.specs.Windows.{Enters, GivesUp, StaysOut, after_try, may_enter};
ghost use Rattle.cb_station.specs.Admission.{with_window};
ghost use Rattle.cb_station.specs.Telling.{NoticesNext, untold_in, with_untold};

use crate::station::Station;
use cb_admission::{AdmissionWindow, TryEnd};
use cb_page::ClientNo;
use std::marker::Model;

/// What lets one try of a transaction go on. A station alone makes one, as it lets the try in, and
/// it can't be copied or let go: [`Ticket::ended`] says how the try ended, and what that answers a
/// station alone takes.
pub struct Ticket {
    sealed: (),
}

impl Ticket {
    /// The try with this ticket ended so.
    pub fn ended(self, end: TryEnd) -> EndedTry
        ensures { result ≡ end }
    {
        EndedTry { ticket: self, end }
    }
}

/// A try that ended, with its ticket, which its station hasn't got back yet. How it ended nobody
/// changes any more, and it can't be copied or let go: [`Station::end_try`] and
/// [`Station::try_again`] alone take it. In contracts it is how the try ended.
pub struct EndedTry {
    ticket: Ticket,
    end: TryEnd,
}

impl Model for EndedTry {
    ghost use Rattle.cb_admission.specs.declared.window.TryEnd.{TryEnd};

    ghost Value = { TryEnd };

    ghost view = { λ ended. ended.end };
}

impl Station {
    /// Lets a try of the client in, and returns its ticket, exactly if the window has room for it
    /// and the client isn't passed over. Otherwise the client waits, and is told when it is next.
    pub fn admit(&mut self, client: ClientNo) -> Option<Ticket>
        ensures exact { is_some result ≡ may_enter self.old.flags.window client }
        ensures after { MatchOption result
            (StaysOut self.old.flags.window client self.new.flags.window)
            (λ ticket. Enters self.old.flags.window client self.new.flags.window) }
        ensures rest { self.new
            ≡ with_untold (with_window self.old self.new.flags.window) (untold_in self.new) }
        ensures next { MatchOption result (untold_in self.new ≡ untold_in self.old)
            (λ ticket. NoticesNext self.new.flags.window (untold_in self.old)
            (untold_in self.new)) }
    {
        let ticket = self.let_in(client)?;
        self.notice_next();
        Some(ticket)
    }

    /// A try ends, and gives its ticket back. Whoever is next is to be told.
    pub fn end_try(&mut self, ended: EndedTry)
        ensures ends { self.new ≡ with_untold (with_window self.old
            (after_try self.old.flags.window ended)) (untold_in self.new) }
        ensures next { NoticesNext self.new.flags.window (untold_in self.old)
            (untold_in self.new) }
    {
        self.take_back(ended);
        self.notice_next();
    }

    /// A try of the client's ends, and gives its ticket back. Then the client's next try is let in
    /// as by [`Station::admit`]. Who is next is decided only after that, so nobody is told if the
    /// client takes the place that it gave back and no other room is left.
    pub fn try_again(&mut self, ended: EndedTry, client: ClientNo) -> Option<Ticket>
        ensures exact { is_some result
            ≡ may_enter (after_try self.old.flags.window ended) client }
        ensures after { MatchOption result
            (StaysOut (after_try self.old.flags.window ended) client self.new.flags.window)
            (λ ticket.
            Enters (after_try self.old.flags.window ended) client self.new.flags.window) }
        ensures rest { self.new
            ≡ with_untold (with_window self.old self.new.flags.window) (untold_in self.new) }
        ensures next { NoticesNext self.new.flags.window (untold_in self.old)
            (untold_in self.new) }
    {
        self.take_back(ended);
        let again = self.let_in(client);
        self.notice_next();
        again
    }

    /// The ticket of a try of the client, exactly where the window lets it in; else the client
    /// waits.
    fn let_in(&mut self, client: ClientNo) -> Option<Ticket>
        ensures exact { is_some result ≡ may_enter self.old.flags.window client }
        ensures after { MatchOption result
            (StaysOut self.old.flags.window client self.new.flags.window)
            (λ ticket. Enters self.old.flags.window client self.new.flags.window) }
        ensures rest { self.new ≡ with_window self.old self.new.flags.window }
    {
        if !self.flags.window.enter(client) {
            return None;
        }
        Some(Ticket { sealed: () })
    }

    /// The window gets the ticket of a try that ended back.
    fn take_back(&mut self, ended: EndedTry)
        ensures { self.new ≡ with_window self.old
            (after_try self.old.flags.window ended) }
    {
        let EndedTry {
            ticket: Ticket { sealed: () },
            end,
        } = ended;
        self.flags.window.leave(end);
    }

    /// The client no longer waits to be let in. Whoever is next is to be told.
    pub fn stop_waiting(&mut self, client: ClientNo)
        ensures gives_up { GivesUp self.old.flags.window client self.new.flags.window }
        ensures rest { self.new
            ≡ with_untold (with_window self.old self.new.flags.window) (untold_in self.new) }
        ensures next { NoticesNext self.new.flags.window (untold_in self.old)
            (untold_in self.new) }
    {
        self.flags.window.give_up(client);
        self.notice_next();
    }

    /// Who is to be let in next is to be told, if there is one.
    fn notice_next(&mut self)
        ensures rest { self.new ≡ with_untold self.old (untold_in self.new) }
        ensures next { NoticesNext self.old.flags.window (untold_in self.old)
            (untold_in self.new) }
    {
        let Some(client) = self.flags.window.next() else {
            return;
        };
        self.dispatcher.notice(client);
    }

    /// How many tries are in, how many may be, and who is to be let in next.
    pub fn window(&self) -> &AdmissionWindow
        ensures { result.now ≡ self.now.flags.window }
    {
        &self.flags.window
    }
}
