//! Scans that find each group kept back as it was.
ghost use Rattle.std.specs.Prelude.{◌≡◌, ◌<◌, true, false, IsTrue};
ghost use Rattle.lp_transition.specs.LastScan.{IsQuietScan};
ghost use Rattle.lp_transition.specs.Scan.{is_scan_kind, scan_event};
ghost use Rattle.lp_cert.specs.Ends.{IsMadeFurther};

use super::Maker;
use super::plain::is_settled;
use lp_model::{CheckKind, Consistency};
use lp_transition::Core;

impl Maker {
    /// Notes a walk or a stop, before the engine takes it, if it may leave out every group that waits: then the newest line of
    /// each goes on. Says whether it did so; if not, all is as it was, and the scan has to be weighed. That may be so for want of
    /// room alone. Never allocates.
    pub(crate) fn note_quiet_scan<M: Consistency>(
        &mut self,
        core: &Core<M>,
        kind: CheckKind,
    ) -> bool
        requires scan { is_scan_kind kind ≡ true }
        requires room { core.now.number < 1000000 }
        ensures quiet { IsTrue result → IsQuietScan M.rules core.now kind }
        ensures made { IsTrue result → IsMadeFurther M.rules core.now (scan_event kind) self.old self.new }
        ensures ready { self.new.ready ≡ self.old.ready }
        ensures left { result ≡ false → self.new ≡ self.old }
    {
        if is_settled(self.current) || self.ready.is_some() {
            return false;
        }
        if !core.is_quiet_scan(kind) || !self.waiters.has_scan_room() {
            return false;
        }
        self.noted = core.events() as u32 + 1;
        self.waiters.scan_nobody(self.noted);
        true
    }
}
