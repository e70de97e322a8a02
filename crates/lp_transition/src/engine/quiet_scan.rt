//! Scans that find nobody to switch: they only take a number.
ghost use Rattle.std.specs.Prelude.{◌≡◌, ◌<◌, true, IsTrue};
ghost use Rattle.lp_transition.specs.LastScan.{IsLastScanAfter, IsQuietScan};
ghost use Rattle.lp_transition.specs.Scan.{is_scan_kind, scan_event};
ghost use Rattle.lp_machine.specs.Steps.{IsStep};
ghost use Rattle.lp_machine.specs.Table.{state_in};
ghost use Rattle.lp_transition.specs.Weigh.{HasToldBlamesAfter};

use super::Core;
use super::dispatch::done;
use crate::Reply;
use lp_model::{CheckKind, Consistency};

impl<M: Consistency> Core<M> {
    /// True only where the model uses this kind of scan, and such a walk or stop may leave out every group that waits: the leg's
    /// last scan was of this kind, and nothing happened since to a group that no frame holds back.
    pub fn is_quiet_scan(&self, kind: CheckKind) -> bool
        ensures { IsTrue result → IsQuietScan M.rules self.now kind }
    {
        let Some(changed) = self.changed_since(kind) else {
            return false;
        };
        changed.is_empty() && self.model.uses(kind)
    }

    /// A walk or a stop that may leave out every group that waits: it is answered and taken with no look at anybody. Afterwards
    /// nothing has happened to anybody since the last scan, which is this one. Never allocates.
    #[inline(always)]
    pub fn step_quiet_scan(&mut self, kind: CheckKind) -> Reply
        requires scan { is_scan_kind kind ≡ true }
        requires room { self.old.number < 1000000 }
        requires quiet { IsQuietScan M.rules self.old kind }
        ensures step { IsStep M.rules (state_in self.old) (scan_event kind) result (state_in self.new) }
        ensures blames { HasToldBlamesAfter M.rules self.old (scan_event kind) self.new }
        ensures last_scan { IsLastScanAfter M.rules self.old (scan_event kind) self.new }
    {
        self.events += 1;
        self.unchanged.clear_changed();
        done()
    }
}
