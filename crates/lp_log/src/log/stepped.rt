//! Events of a seat that switch nobody, as they are no checks or no transition is under way: the engine steps at once, as
//! no step has to stand between. They are nearly all events of a recording.
ghost use Rattle.std.specs.Prelude.{◌≡◌, ◌≢◌, ◌≤◌, ◌<◌, ◌↔◌, [], ◌∷◌, ◌++◌, true, false, IfOk, IfErr, OnErr, OnOk, length};
ghost use Rattle.lp_transition.specs.Weigh.{is_switched};
ghost use Rattle.lp_log.specs.declared.seat.TurnedBy.TheVariants.{NotYours, JournalFull as Full};
ghost use Rattle.lp_log.specs.Journals.{next_entry, reply_to, and_entry};
ghost use Rattle.lp_log.specs.Logs.{AreSame};
ghost use Rattle.lp_machine.specs.Table.{state_in};
ghost use Rattle.lp_log.specs.inside.Quiet.{is_quiet_now};
ghost use Rattle.lp_definitions.specs.TaskEvents.{is_own_check};

use super::Log;
use crate::Entry;
use crate::seat::TurnedBy;
use lp_model::Consistency;
use lp_transition::laws::the_machine_steps_as_defined;
use lp_transition::{Event, Reply, What};
use std::alloc::Global;

impl<M: Consistency> Log<M> {
    /// Whether an event switches nobody, as far as one sees without weighing it.
    #[inline(always)]
    pub(super) fn is_quiet_now(&self, event: Event) -> bool
        ensures { result ≡ is_quiet_now (state_in self.now.core) event }
    {
        event.is_quiet() || (is_own_check(event) && !self.core.in_transition())
    }

    /// Takes an event that switches nobody, and adds its entry to a list of the sender's too.
    pub(super) fn step_into(
        &mut self,
        alloc: Global,
        event: Event,
        sent: &mut Vec<Entry>,
    ) -> Result<Reply, TurnedBy>
        requires { is_quiet_now (state_in self.old.core) event ≡ true }
        ensures reply { IfOk result (λ given. given ≡ reply_to M.rules self.old.journal event) }
        ensures journal { IfOk result (λ given. self.new.journal ≡ and_entry self.old.journal event given) }
        ensures sent { IfOk result (λ given. sent.new.items ≡ sent.old.items ++ next_entry self.old.journal.entries event given ∷ []) }
        ensures left { OnOk result (length self.old.journal.entries < 1000000) }
        ensures err { OnErr result ((sent.new.items ≡ sent.old.items) × AreSame self.old self.new) }
        ensures yours { IfErr result (λ cause. cause ≢ NotYours) }
        ensures full { IfErr result (λ cause. (cause ≡ Full) ↔ (1000000 ≤ length self.old.journal.entries)) }
    {
        if self.is_full() {
            return Err(TurnedBy::JournalFull);
        }
        if self.room_with(sent).is_err() {
            return Err(TurnedBy::NoMemory);
        }
        let number = self.next_number();
        let reply = self.step_reserved(alloc, event);
        sent.push_reserved(Entry::new(number, event, copy_of(&reply)));
        Ok(reply)
    }

    /// Takes an event that switches nobody, for whose entry there is memory. Never allocates.
    fn step_reserved(&mut self, alloc: Global, event: Event) -> Reply
        requires quiet { is_quiet_now (state_in self.old.core) event ≡ true }
        requires left { self.old.core.number < 1000000 }
        requires room { 0 < self.old.room }
        ensures reply { result ≡ reply_to M.rules self.old.journal event }
        ensures quiet { is_switched result.what ≡ false }
        ensures journal { self.new.journal ≡ and_entry self.old.journal event result }
    {
        the_machine_steps_as_defined::<M>();
        let number = self.entries.len() as u32 + 1;
        // There is an event left, and what switches nobody asks for no memory: the law says that the answer switches nobody.
        let Ok(reply) = self.core.step(alloc, event) else {
            unreachable!()
        };
        self.entries
            .push_reserved(Entry::new(number, event, copy_of(&reply)));
        reply
    }
}

/// Whether an event is an own check.
#[inline(always)]
fn is_own_check(event: Event) -> bool
    ensures { result ≡ is_own_check event }
{
    matches!(event, Event::Exit(_) | Event::Idle(_) | Event::Resched(_))
}

/// The same reply once more. It names no groups, and so takes no memory.
#[inline(always)]
fn copy_of(reply: &Reply) -> Reply
    requires { is_switched reply.now.what ≡ false }
    ensures { result ≡ reply.now }
{
    let what = match &reply.what {
        What::Ran(level) => What::Ran(*level),
        What::Done => What::Done,
        What::Refused(why) => What::Refused(*why),
        What::Switched(_) => unreachable!(),
    };
    Reply {
        what,
        completed: reply.completed,
    }
}
