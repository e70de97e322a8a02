//! Scans, and events that may open a leg: these are weighed before the engine takes them.
ghost use Rattle.std.specs.Prelude.{◌≡◌, ◌<◌, true, IfOk, OnErr, OnOk};
ghost use Rattle.lp_machine.specs.Steps.{IsStep};
ghost use Rattle.lp_machine.specs.Table.{state_in};
ghost use Rattle.lp_transition.specs.Scan.{is_scan_kind, scan_event};
ghost use Rattle.lp_transition.specs.Weigh.{HasBlamesAfter};
ghost use Rattle.lp_cert.specs.inside.Invariant.{IsMadeAfter};

use super::Maker;
use lp_model::{CheckKind, Consistency};
use lp_transition::{Core, Event, Halt, Reply};
use std::alloc::{AllocError, Global};

impl Maker {
    /// Lets the engine take a walk or a stop, and notes it: without a look at anybody where no group has to be asked, since then it
    /// switches nobody and each group's newest reason continues.
    #[inline(always)]
    pub(crate) fn take_scan<M: Consistency>(
        &mut self,
        alloc: Global,
        core: &mut Core<M>,
        kind: CheckKind,
        event: Event,
    ) -> Result<Reply, AllocError>
        requires scan { is_scan_kind kind ≡ true }
        requires event { event ≡ scan_event kind }
        requires room { core.old.number < 1000000 }
        ensures step { IfOk result (λ reply. IsStep M.rules (state_in core.old) event reply (state_in core.new)) }
        ensures made { OnOk result (IsMadeAfter M.rules core.old event core.new self.old self.new) }
        ensures blames { OnOk result (HasBlamesAfter M.rules core.old event core.new) }
        ensures unchanged { OnErr result (core.new ≡ core.old) }
        ensures ended { OnErr result (self.new.ended ≡ self.old.ended) }
        ensures current { OnErr result (self.new.current ≡ self.old.current) }
    {
        if self.note_quiet_scan(core, kind) {
            return Ok(core.step_quiet_scan(kind));
        }
        self.take_weighed(alloc, core, event)
    }

    /// Lets the engine take an event that is weighed first, and notes it: one that may open a leg, and a scan that has to ask
    /// somebody, by those alone to whom something happened since the last one. Out of line, so that others pay nothing for what it
    /// needs.
    #[inline(never)]
    pub(crate) fn take_weighed<M: Consistency>(
        &mut self,
        alloc: Global,
        core: &mut Core<M>,
        event: Event,
    ) -> Result<Reply, AllocError>
        requires room { core.old.number < 1000000 }
        ensures step { IfOk result (λ reply. IsStep M.rules (state_in core.old) event reply (state_in core.new)) }
        ensures made { OnOk result (IsMadeAfter M.rules core.old event core.new self.old self.new) }
        ensures blames { OnOk result (HasBlamesAfter M.rules core.old event core.new) }
        ensures unchanged { OnErr result (core.new ≡ core.old) }
        ensures ended { OnErr result (self.new.ended ≡ self.old.ended) }
        ensures current { OnErr result (self.new.current ≡ self.old.current) }
    {
        let step = match core.weigh_changed(alloc, event) {
            Ok(step) => step,
            Err(Halt::NoMemory) => return Err(AllocError),
            Err(Halt::JournalFull) => unreachable!(),
        };
        match self.ready(alloc, core, &step) {
            Ok(()) => {
                self.note(core, &step);
                Ok(core.take(step))
            }
            Err(error) => {
                drop(step);
                Err(error)
            }
        }
    }
}
