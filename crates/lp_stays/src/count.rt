//! The count of stays.
ghost use Rattle.std.specs.Prelude.{◌≡◌, ◌+◌, ◌*◌, ◌<◌, nat_le, length, replicate, IfOk};
ghost use Rattle.lp_stays.specs.Invariant.{outside};
ghost use Rattle.lp_stays.specs.inside.Calls.{after_call, after_return};
ghost use Rattle.lp_stays.specs.inside.Holders.{IsHolders};
ghost use Rattle.lp_stays.specs.Counts.{IsFirst, CountsCall, CountsReturn};

use crate::holders::{all_holders, holders, next_holder};
use crate::present::Present;
use lp_numbers::NUMBERS;
use lp_patch::PatchStack;
use lp_stack::{Level, TaskId};
use lp_symbols::SymId;
use std::alloc::{AllocError, Global};
use std::marker::Model;

/// How many stays there were in a run so far, and how many of them ran both sides of a patch.
///
/// For a patch and a task, a stay is as long as a function of the patch is on the task's stack.
/// Stays are counted for each patch by itself, those that aren't over too. A count is made before
/// the first event, and then hears of each call that ran and each return that was accepted. No other
/// event moves a stack, so it leaves the count that of the run (`other_events_keep_counts`).
///
/// It keeps what is under way alone: for each patch and task how many calls of the patch are on the
/// stack, and which sides ran since the stack was last free of them. So an event costs the same
/// however long the run is, and no stay is kept once it is over.
///
/// Contracts see what it keeps.
pub struct StayCount {
    patches: PatchStack,
    /// How many calls it heard of.
    calls: u32,
    stays: u64,
    mixed: u64,
    /// For each patch, one after the other, the stay that each task is in.
    present: Vec<Present>,
    /// For each function, the patches that have it.
    holders: Vec<u16>,
}

/// By hand, so that the proof of who owns one lets go of it in one step, not field by field.
impl Drop for StayCount {
    fn drop(self) {
        let StayCount {
            patches: _,
            calls: _,
            stays: _,
            mixed: _,
            present: _,
            holders: _,
        } = self;
    }
}

impl Model for StayCount {
    ghost use Rattle.lp_stays.specs.Invariant.{Tally};
    ghost use Rattle.lp_stays.specs.inside.Holders.{IsCount};

    ghost Value = { Tally };

    ghost view = { λ c. record { patches = c.patches; calls = c.calls; stays = c.stays; mixed = c.mixed; present = c.present.items } };

    ghost invariant = { λ c. IsCount (record { patches = c.patches; calls = c.calls; stays = c.stays; mixed = c.mixed; present = c.present.items }) c.holders.items };
}

impl StayCount {
    /// The count before any event, for a run with these patches; an `Err` only where an allocation
    /// failed.
    pub fn new(alloc: Global, patches: &PatchStack) -> Result<StayCount, AllocError>
        ensures first { IfOk result (λ count. IsFirst patches.now count) }
        ensures calls { IfOk result (λ count. count.calls ≡ 0) }
    {
        let patches = patches.copy(alloc)?;
        let present = all_outside(alloc, usize::from(patches.patches().0) * NUMBERS)?;
        let holders = all_holders(alloc, &patches)?;
        Ok(StayCount {
            patches,
            calls: 0,
            stays: 0,
            mixed: 0,
            present,
            holders,
        })
    }

    /// Counts a call that ran at a level, in each patch that has the function. At most 1,000,000
    /// calls are counted.
    #[inline(always)]
    pub fn call(&mut self, task: TaskId, func: SymId, level: Level)
        requires { self.old.calls < 1000000 }
        ensures counts { CountsCall task func level self.old self.new }
        ensures calls { self.new.calls ≡ self.old.calls + 1 }
    {
        let holders = self.holders(func);
        self.calls += 1;
        let mut from = 0;
        while let Some(below) = next_holder(holders, from) {
            self.call_in(below, task, has_patch(level, below));
            from = below + 1;
        }
    }

    /// Counts an accepted return from a function, that of the task's last frame before it, in each
    /// patch that has the function.
    #[inline(always)]
    pub fn ret(&mut self, task: TaskId, func: SymId)
        ensures counts { CountsReturn task func self.old self.new }
        ensures calls { self.new.calls ≡ self.old.calls }
    {
        // For the proof alone, which knows what every value keeps once a field is read.
        let _ = &self.patches;
        let holders = self.holders(func);
        let mut from = 0;
        while let Some(below) = next_holder(holders, from) {
            self.return_in(below, task);
            from = below + 1;
        }
    }

    /// How many calls were counted.
    pub fn calls(&self) -> u64
        ensures { result ≡ self.now.calls }
    {
        u64::from(self.calls)
    }

    /// How many stays there were.
    pub fn stays(&self) -> u64
        ensures { result ≡ self.now.stays }
    {
        self.stays
    }

    /// How many stays ran both sides of their patch.
    pub fn mixed(&self) -> u64
        ensures { result ≡ self.now.mixed }
    {
        self.mixed
    }

    /// The patches that have a function.
    #[inline(always)]
    fn holders(&self, func: SymId) -> u16
        ensures { IsHolders self.now.patches func.0 result }
    {
        match self.holders.get(func.index()) {
            Some(mask) => *mask,
            None => holders(&self.patches, func),
        }
    }

    /// A call of a function of the patch above so many.
    #[inline(always)]
    fn call_in(&mut self, below: u8, task: TaskId, new_side: bool)
        requires patch { below < length self.old.patches }
        requires stays { self.old.stays < 16 * self.old.calls }
        requires mixed { self.old.mixed < 16 * self.old.calls }
        ensures { self.new ≡ after_call below task.0 new_side self.old }
    {
        let place = place(below, task);
        let before = self.present[place];
        let now = before.called(new_side);
        self.present[place] = now;
        self.stays += u64::from(before.is_outside());
        self.mixed += u64::from(now.is_both() & !before.is_both());
    }

    /// A return from a function of the patch above so many.
    #[inline(always)]
    fn return_in(&mut self, below: u8, task: TaskId)
        requires { below < length self.old.patches }
        ensures { self.new ≡ after_return below task.0 self.old }
    {
        let place = place(below, task);
        let now = self.present[place].returned();
        self.present[place] = now;
    }
}

/// Whether a level has the patch above so many.
#[inline(always)]
fn has_patch(level: Level, below: u8) -> bool
    ensures { result ≡ nat_le (below + 1) level.0 }
{
    below < level.0
}

/// Where the stay of a task in the functions of the patch above so many is kept.
#[inline(always)]
fn place(below: u8, task: TaskId) -> usize
    ensures { result ≡ below * 65536 + task.0 }
{
    usize::from(below) * NUMBERS + usize::from(task.0)
}

/// As many places as are asked for, each outside of stays.
fn all_outside(alloc: Global, places: usize) -> Result<Vec<Present>, AllocError>
    ensures { IfOk result (λ present. present.items ≡ replicate places outside) }
{
    vec![in alloc; Present::outside(); places]
}
