//! The events of a drawn schedule.
ghost use Rattle.std.specs.Prelude.{◌≡◌, ◌≤◌, ◌<◌, ◌%◌, IfOk, OnErr};
ghost use Rattle.cb_transcript.specs.Drawn.{HasPacket, drawn_event, drawn_kind, event_of, starts};
ghost use Rattle.cb_transcript.specs.Drawn.{words_of};
ghost use Rattle.cb_transcript.specs.RandomWords.{after_words, word_at};
ghost use Rattle.cb_transcript.specs.declared.kind.Kind.TheVariants as kinds;

use crate::event::{Call, Event};
use crate::kind::Kind;
use cb_page::{ClientNo, Limits, Page, PageNo};
use rand_core::utils::NextWord;
use rand_pcg::Lcg64Xsh32;
use std::alloc::{AllocError, Global};
use std::marker::Model;

/// How many of the last packets a late one is drawn from.
const LATE: u64 = 8;

/// A generator of events for a world of some limits. In contracts it is these limits and the
/// present state of the generator of words.
#[derive(Drop)]
pub struct Drawing {
    limits: Limits,
    generator: Lcg64Xsh32,
}

impl Model for Drawing {
    ghost use Rattle.cb_transcript.specs.Drawn.{DrawingState};

    ghost Value = { DrawingState };

    ghost view = { λ d. record { limits = d.limits; generator = d.generator } };
}

impl Drawing {
    /// The drawing of a seed: the words of `Lcg64Xsh32` with that state, at stream 0.
    pub fn new(limits: &Limits, seed: u64) -> Drawing
        ensures { result ≡ starts limits.now seed }
    {
        Drawing {
            limits: *limits,
            generator: Lcg64Xsh32::new(seed, 0),
        }
    }

    /// The next event of a world in which so many packets were sent. `AllocError` only for the
    /// bytes of a write, whose words are then used up too.
    pub fn next_event(&mut self, alloc: Global, sent: u64) -> Result<Event, AllocError>
        ensures event { IfOk result (λ event. event ≡ drawn_event self.old sent) }
        ensures fails { OnErr result (drawn_kind self.old sent ≡ kinds.Write) }
        ensures words { self.new ≡ record self.old {
          generator = after_words (after_words self.old.generator 1)
              (words_of (drawn_kind self.old sent));
        } }
    {
        let kind = Kind::drawn(self.below(32), sent);
        self.event(alloc, kind, sent)
    }

    /// An event of that kind.
    fn event(&mut self, alloc: Global, kind: Kind, sent: u64) -> Result<Event, AllocError>
        requires { HasPacket sent kind }
        ensures event { IfOk result (λ event.
            event ≡ event_of self.old.limits sent (word_at self.old.generator) kind) }
        ensures fails { OnErr result (kind ≡ kinds.Write) }
        ensures words { self.new ≡ record self.old {
          generator = after_words self.old.generator (words_of kind);
        } }
    {
        Ok(match kind {
            Kind::Hello => self.call(Call::Hello),
            Kind::Begin => self.call(Call::Begin),
            Kind::Finish => self.call(Call::Finish),
            Kind::Drop => self.call(Call::Drop),
            Kind::AgainClient => self.call(Call::Again),
            Kind::Restart => Event::Restart {
                client: self.client(),
            },
            Kind::Read => {
                let client = self.client();
                let page = self.page();
                Event::Call {
                    client,
                    call: Call::Read { page },
                }
            }
            Kind::Want => {
                let client = self.client();
                let page = self.page();
                Event::Call {
                    client,
                    call: Call::Want { page },
                }
            }
            Kind::Write => self.write(alloc)?,
            Kind::AgainServer => Event::AgainServer,
            Kind::Flush => Event::Flush,
            Kind::TakeLate => Event::Take {
                packet: sent - 1 - self.below(sent.min(LATE)),
            },
            Kind::TakeAny => Event::Take {
                packet: self.below(sent),
            },
        })
    }

    /// A write of one byte all over a page.
    fn write(&mut self, alloc: Global) -> Result<Event, AllocError>
        ensures event { IfOk result (λ event.
            event ≡ event_of self.old.limits 0 (word_at self.old.generator) kinds.Write) }
        ensures words { self.new ≡ record self.old {
          generator = after_words self.old.generator 3;
        } }
    {
        let client = self.client();
        let page = self.page();
        let byte = self.below(256) as u8;
        let bytes = vec![in alloc; byte; self.limits.page_size()]?;
        Ok(Event::Call {
            client,
            call: Call::Write {
                page,
                bytes: Page::from_vec(bytes),
            },
        })
    }

    /// A call of some client.
    fn call(&mut self, call: Call) -> Event
        ensures event { result ≡ Event.Call
            (word_at self.old.generator 0 % self.old.limits.clients) call }
        ensures words { self.new ≡ record self.old {
          generator = after_words self.old.generator 1;
        } }
    {
        Event::Call {
            client: self.client(),
            call,
        }
    }

    /// Some client.
    fn client(&mut self) -> ClientNo
        ensures value { result ≡ word_at self.old.generator 0 % self.old.limits.clients }
        ensures words { self.new ≡ record self.old {
          generator = after_words self.old.generator 1;
        } }
    {
        let clients = self.limits.clients();
        ClientNo::new(self.below(u64::from(clients)) as u16)
    }

    /// Some page.
    fn page(&mut self) -> PageNo
        ensures value { result ≡ word_at self.old.generator 0 % self.old.limits.pages }
        ensures words { self.new ≡ record self.old {
          generator = after_words self.old.generator 1;
        } }
    {
        let pages = self.limits.pages();
        PageNo::new(self.below(u64::from(pages)) as u32)
    }

    /// The next word, by its remainder.
    fn below(&mut self, bound: u64) -> u64
        requires { 1 ≤ bound }
        ensures value { result ≡ word_at self.old.generator 0 % bound }
        ensures least { result < bound }
        ensures words { self.new ≡ record self.old {
          generator = after_words self.old.generator 1;
        } }
    {
        u64::from(self.generator.next_word()) % bound
    }
}
