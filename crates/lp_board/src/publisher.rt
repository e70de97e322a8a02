//! What publishes, under the desk's lock.
ghost use Rattle.std.specs.Prelude.{◌≡◌, ◌∷◌, ◌++◌, ◌<◌, ◌^◌, [], drop, fold, length, OnOk, OnErr};
ghost use Rattle.lp_board.specs.Names.{state_after};
ghost use Rattle.lp_board.specs.Pages.{IsHeading, IsPage, Leads, page_after};
ghost use Rattle.lp_board.specs.inside.Publishers.{page_of};

use crate::history::{Head, Prefix};
use crate::name::DeskName;
use crate::reader::Told;
use crate::sheet::{Change, Heading, Page, Sheet, Shows, Update};
use core::mem::replace_with;
use crossbeam_utils::rule::Protocol;
use left_right::Absorb;
use left_right::writer::Writer;
use lp_transition::Event;
use std::alloc::AllocError;
use std::marker::Model;
use std::sync::Wait;

pub(crate) type RawWriter<N> = Writer<Sheet<N>, Change<N>, (), Shows<N>>;

/// What publishes a desk's events, each at once. It is not `Drop`: end it by `shut`.
///
/// Contracts see the events that are published.
pub struct Publisher<N: DeskName>
where
    Sheet<N>: Absorb<Change<N>, State = Page>,
    Shows<N>: Protocol<Sheet<N>, ()>,
{
    head: Head,
    prefix: Prefix<N>,
    writer: RawWriter<N>,
}

impl<N: DeskName> Model for Publisher<N>
where
    Sheet<N>: Absorb<Change<N>, State = Page>,
    Shows<N>: Protocol<Sheet<N>, ()>,
{
    ghost use Rattle.std.specs.Prelude.{List, drop};
    ghost use Rattle.lp_definitions.specs.declared.event.Event.{Event};
    ghost use Rattle.lp_board.specs.inside.Publishers.{IsPublished, page_of};

    ghost Value = { List Event };

    ghost view = { λ p. p.prefix };

    ghost invariant = { λ p. IsPublished N.desk p.head p.prefix (page_of p.writer.desk.shown.value) (drop p.writer.behind p.writer.log.items) };
}

/// All events that a desk ever published: its board was given up after them.
///
/// Contracts see the events.
#[derive(Drop)]
pub struct AllTold<N: DeskName> {
    told: Told<N>,
}

impl<N: DeskName> Model for AllTold<N> {
    ghost use Rattle.std.specs.Prelude.{List};
    ghost use Rattle.lp_definitions.specs.declared.event.Event.{Event};

    ghost Value = { List Event };

    ghost view = { λ all. all.told };
}

impl<N: DeskName> AllTold<N> {
    /// The same, to compare it with what readers saw or others were told.
    pub fn told(&self) -> &Told<N>
        ensures { result.now ≡ self.now }
    {
        &self.told
    }
}

impl<N: DeskName> Publisher<N> {
    ghost use Rattle.lp_board.specs.inside.History.{head_of};
    ghost use Rattle.lp_board.specs.inside.Publishers.{IsPublished};

    /// The publisher of a board that shows the start, with nothing pending.
    pub(crate) fn new(head: Head, prefix: Prefix<N>, writer: RawWriter<N>) -> Publisher<N>
        requires { IsPublished N.desk head prefix (page_of writer.desk.shown.value) (drop writer.behind writer.log.items) }
        ensures { result ≡ prefix }
    {
        Publisher {
            head,
            prefix,
            writer,
        }
    }

    /// Whether a transition is under way, and the lower of its two levels.
    pub fn heading(&self) -> Heading
        ensures { IsHeading result (state_after N.desk self.now) }
    {
        self.writer.published().heading
    }

    /// Publishes one event, at once: what it changes is written, and readers see it from then on. It waits for
    /// readers that still read the copy from before the last event. It never allocates, as the board made room
    /// for one event when it was opened.
    ///
    /// At `Err` nothing that readers see has changed. There are two such branches, and none is ever taken:
    /// nobody else adds to the history, and the room for one event is there; but the contracts of what the
    /// board stands on say neither.
    pub fn show<R: Wait>(&mut self, rt: &R, event: Event, update: Update) -> Result<(), AllocError>
        requires room { length self.old < 2 ^ 62 }
        requires leads { Leads (state_after N.desk self.old) update (state_after N.desk (self.old ++ event ∷ [])) }
        ensures shown { OnOk result (self.new ≡ self.old ++ event ∷ []) }
        ensures err { OnErr result (self.new ≡ self.old) }
    {
        let mut prefix = self.prefix.again();
        if !prefix.extend(&self.head, event) {
            return Err(AllocError);
        }
        let change = Change {
            update,
            prefix: prefix.again(),
        };
        if self.writer.append(change).is_err() {
            return Err(AllocError);
        }
        replace_with(&mut self.writer, rt, publish);
        self.prefix = prefix;
        Ok(())
    }

    /// The events that are published, for a reader to learn. Never allocates.
    pub fn tell(&self) -> Told<N>
        ensures { result ≡ self.now }
    {
        Told::new(self.prefix.again())
    }

    /// Gives the board up, and tells all that it ever showed. It waits for readers that are inside a read.
    pub fn shut<R: Wait>(self, rt: &R) -> AllTold<N>
        ensures { result ≡ self }
    {
        let Publisher {
            head: _,
            prefix,
            writer,
        } = self;
        drop(writer.take(rt));
        AllTold {
            told: Told::new(prefix),
        }
    }
}

/// Publishes what is pending, which never fails.
pub(crate) fn publish<N: DeskName, R: Wait>(writer: RawWriter<N>, rt: &R) -> (RawWriter<N>, ())
    requires { IsPage N.desk (fold page_after (page_of writer.desk.shown.value) (drop writer.behind writer.log.items)) }
    ensures shown { page_of result.0.desk.shown.value ≡ fold page_after (page_of writer.desk.shown.value) (drop writer.behind writer.log.items) }
    ensures pending { drop result.0.behind result.0.log.items ≡ [] }
{
    let (writer, _done) = writer.publish_as::<Shows<N>, R>(rt);
    (writer, ())
}
