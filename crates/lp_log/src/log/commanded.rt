//! Events that are sent from the control. Walks and stops look at the tasks by several threads.
ghost use Rattle.std.specs.Prelude.{◌≡◌, ◌≢◌, ◌≤◌, ◌<◌, ◌↔◌, [], ◌∷◌, ◌++◌, true, None, Err, IfOk, IfErr, IfSome, IsTrue, OnErr, OnOk, length};
ghost use Rattle.lp_transition.specs.Blames.{is_open};
ghost use Rattle.lp_transition.specs.Scan.{is_scan_kind, scan_event, verdicts_among};
ghost use Rattle.lp_machine.specs.Table.{state_in};
ghost use Rattle.lp_transition.specs.Weigh.{IsWeighed};
ghost use Rattle.lp_transition.specs.declared.engine.step.Halt.TheVariants.{JournalFull};
ghost use Rattle.lp_definitions.specs.declared.event.Event.TheVariants.{Walk};
ghost use Rattle.lp_log.specs.declared.seat.TurnedBy.TheVariants.{NotYours, JournalFull as Full};
ghost use Rattle.lp_log.specs.Journals.{IsReplayed, next_entry, reply_to, and_entry};
ghost use Rattle.lp_log.specs.Logs.{AreSame};
ghost use Rattle.lp_log.specs.Seats.{owner};

use super::Log;
use crate::seat::{Control, ControlAnswer, Turned};
use lp_model::{CheckKind, Consistency, Verdict};
use lp_scan::{Judged, ScanGate, scan_shared};
use lp_transition::{Event, Halt, MOST_EVENTS, Step};
use std::alloc::{AllocError, Global};
use std::thread::Threads;

impl<M: Consistency + Sync> Log<M> {
    /// Takes an event that is sent from the control, which comes back with the entry. A walk that was judged before is
    /// taken by that, as `apply_judged` does. Else a walk or a stop looks at the waiting tasks whose groups have no standing
    /// blame, in as many pieces as there are workers, each of which passes the gate; where the model doesn't use the check,
    /// at none. Waits for the workers.
    ///
    /// Turned back, with the engine and the journal as they were, for a task's event, else where no event is left,
    /// else where an allocation failed.
    pub fn command<R: Threads + Sync, G: ScanGate + Sync>(
        &mut self,
        rt: &R,
        alloc: Global,
        workers: usize,
        gate: &G,
        judged: Option<&Judged<M>>,
        control: Control,
        event: Event,
    ) -> Result<ControlAnswer, Turned<Control>>
        requires some { 0 < workers }
        requires few { workers ≤ 64 }
        requires walk { IfSome judged (λ _. event ≡ Walk) }
        ensures yours { OnOk result (owner event ≡ None) }
        ensures reply { IfOk result (λ done. done.reply ≡ reply_to M.rules self.old.journal event) }
        ensures journal { IfOk result (λ done. self.new.journal ≡ and_entry self.old.journal event done.reply) }
        ensures control { IfOk result (λ done. done.control ≡ control ++ next_entry self.old.journal.entries event done.reply ∷ []) }
        ensures replayed { IsReplayed M.rules self.old.journal }
        ensures left { OnOk result (length self.old.journal.entries < 1000000) }
        ensures turned { IfErr result (λ turned. turned.part ≡ control) }
        ensures unchanged { OnErr result (AreSame self.old self.new) }
        ensures not_yours { IfErr result (λ turned. (turned.cause ≡ NotYours) ↔ (owner event ≢ None)) }
        ensures full { IfErr result (λ turned. (turned.cause ≡ Full) ↔ ((owner event ≡ None) × (1000000 ≤ length self.old.journal.entries))) }
    {
        match self.prepare_command(rt, alloc, workers, gate, judged, control, event) {
            Ok(commanding) => Ok(self.send_command(commanding)),
            Err(turned) => Err(turned),
        }
    }

    /// An event, weighed on the engine; a walk by what was judged before, if it was; else a walk or a stop that the model
    /// uses after a look at every waiting task whose group has no standing blame, by several threads.
    pub(super) fn weigh_shared<R: Threads + Sync, G: ScanGate + Sync>(
        &self,
        rt: &R,
        alloc: Global,
        workers: usize,
        gate: &G,
        judged: Option<&Judged<M>>,
        event: Event,
    ) -> Result<Step, Halt>
        requires some { 0 < workers }
        requires few { workers ≤ 64 }
        requires walk { IfSome judged (λ _. event ≡ Walk) }
        ensures full { (result ≡ Err JournalFull) ↔ (1000000 ≤ length self.now.journal.entries) }
        ensures weighed { IfOk result (λ step. IsWeighed M.rules self.now.core step) }
        ensures event { IfOk result (λ step. step.event ≡ event) }
    {
        if let Some(judged) = judged {
            return self.weigh_judged(alloc, judged);
        }
        match scan_kind(event) {
            Some(kind) if self.looks_at(kind) => {
                self.weigh_looked(rt, alloc, workers, gate, kind)
            }
            _ => self.weigh(alloc, event),
        }
    }

    /// Whether the model uses the check, and a number is left for one more event.
    fn looks_at(&self, kind: CheckKind) -> bool
        ensures { IsTrue result → length self.now.journal.entries < 1000000 }
    {
        self.core.events() < u64::from(MOST_EVENTS) && self.core.model().uses(kind)
    }

    /// A walk or a stop, weighed after a look, by several threads, at every waiting task whose group has no standing blame.
    fn weigh_looked<R: Threads + Sync, G: ScanGate + Sync>(
        &self,
        rt: &R,
        alloc: Global,
        workers: usize,
        gate: &G,
        kind: CheckKind,
    ) -> Result<Step, Halt>
        requires some { 0 < workers }
        requires few { workers ≤ 64 }
        requires scan { is_scan_kind kind ≡ true }
        requires left { length self.now.journal.entries < 1000000 }
        ensures full { result ≢ Err JournalFull }
        ensures weighed { IfOk result (λ step. IsWeighed M.rules self.now.core step) }
        ensures event { IfOk result (λ step. step.event ≡ scan_event kind) }
    {
        let found = self.look(rt, alloc, workers, gate, kind)?;
        self.weigh_open(alloc, kind, found.as_slice())
    }

    /// What checks of this kind find, by several threads, of every waiting task whose group has no standing blame.
    fn look<R: Threads + Sync, G: ScanGate + Sync>(
        &self,
        rt: &R,
        alloc: Global,
        workers: usize,
        gate: &G,
        kind: CheckKind,
    ) -> Result<Vec<Verdict>, AllocError>
        requires some { 0 < workers }
        requires few { workers ≤ 64 }
        ensures { IfOk result (λ found. found.items ≡ verdicts_among M.rules kind (state_in self.now.core) (is_open self.now.core)) }
    {
        let views = self.core.open_views(alloc)?;
        let aim = self.core.aim();
        let model = self.core.model();
        scan_shared(
            rt,
            alloc,
            workers,
            gate,
            model,
            kind,
            &aim,
            views.as_slice(),
        )
    }
}

/// Whether it is a task's event.
pub(super) fn is_owned(event: Event) -> bool
    ensures { IsTrue result ↔ (owner event ≢ None) }
{
    !event.is_scan() && !event.is_control()
}

/// The kind of check that a walk or a stop is; None for any other event.
fn scan_kind(event: Event) -> Option<CheckKind>
    ensures scan { IfSome result (λ kind. is_scan_kind kind ≡ true) }
    ensures event { IfSome result (λ kind. scan_event kind ≡ event) }
{
    match event {
        Event::Walk => Some(CheckKind::Walk),
        Event::Stop => Some(CheckKind::Stop),
        _ => None,
    }
}
