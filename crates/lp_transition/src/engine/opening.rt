//! The engine as it stood when a leg opened.
ghost use Rattle.std.specs.Prelude.{◌≡◌, [], IfOk};
ghost use Rattle.lp_definitions.specs.Sound.{IsSound};
ghost use Rattle.lp_machine.specs.Steps.{OpensLegs};
ghost use Rattle.lp_machine.specs.Table.{no_scan, state_in};

use super::Core;
use lp_model::Consistency;
use lp_tasks::Opening;
use std::alloc::{AllocError, Global};

impl<M: Consistency> Core<M> {
    /// A copy of the engine as it stands, but for the standing blames and what is known of the last scan. Just after an
    /// accepted control event it is the opening of that event's leg. An `Err` only where an allocation failed.
    pub fn standing(&self, alloc: Global) -> Result<Opening, AllocError>
        ensures same { IfOk result (λ opening. opening ≡ record self.now { blames = []; last_scan = no_scan }) }
        ensures sound { IfOk result (λ opening. IsSound (state_in opening)) }
        ensures opens { IfOk result (λ opening. OpensLegs M.rules (state_in opening)) }
    {
        let patches = self.patches.copy(alloc)?;
        let tasks = self.tasks.copy(alloc)?;
        Ok(Opening::new(self.events, self.from, self.target, patches, tasks))
    }
}
