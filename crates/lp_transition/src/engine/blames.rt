//! The frames by which the waiting groups are known to be refused.
ghost use Rattle.std.specs.Prelude.{◌≡◌, ◌<◌, ◌≤◌, ℕ, List, Option, None, Some, true, false, if◌then◌else◌, length, nat_eq, slice_index_or, IfOk};
ghost use Rattle.std.specs.List.{list_any};
ghost use Rattle.lp_numbers.specs.Numbers.{has};
ghost use Rattle.lp_machine.specs.Table.{slot};
ghost use Rattle.lp_tasks.specs.inside.Table.{is_in};
ghost use Rattle.lp_transition.specs.Blames.{or_blame};
ghost use Rattle.lp_transition.specs.inside.Blames.{blame_at, looked_at, found_by, told_of, IsDecided};
ghost use Rattle.lp_transition.specs.inside.ScanSteps.{is_found};

use lp_machine::StandingBlame;
use lp_model::{Blame, Verdict};
use lp_numbers::{NumberSet, NumberTable};
use lp_stack::{GroupId, TaskId};
use lp_tasks::TaskTable;
use std::alloc::{AllocError, Global};
use std::marker::Model;

/// The standing blame of each group that got one.
type BlameTable = NumberTable<Option<StandingBlame>>;

/// For each group its standing blame, if it has one. Only `new` allocates.
pub(super) struct Blames {
    of_group: BlameTable,
    /// The groups that got a blame since the last control event, so that one needn't go over all.
    noted: NumberSet,
}

/// By hand, so that the proof of who owns one lets go of it in one step, not field by field.
impl Drop for Blames {
    fn drop(self) {
        let Blames {
            of_group: _,
            noted: _,
        } = self;
    }
}

impl Model for Blames {
    ghost use Rattle.std.specs.Prelude.{List, Option};
    ghost use Rattle.lp_machine.specs.declared.standing_blame.StandingBlame.{StandingBlame};
    ghost use Rattle.lp_transition.specs.inside.Blames.{AreNoted};

    ghost Value = { List (Option StandingBlame) };

    ghost view = { λ b. b.of_group };

    ghost invariant = { λ b. AreNoted b.of_group b.noted };
}

impl Blames {
    /// No group has a blame; AllocError where an allocation failed.
    pub(super) fn new(alloc: Global) -> Result<Blames, AllocError>
        ensures none { IfOk result (λ blames. (group : ℕ) → blame_at blames group ≡ None) }
        ensures groups { IfOk result (λ blames. length blames ≤ 65536) }
    {
        Ok(Blames {
            of_group: NumberTable::new(alloc)?,
            noted: NumberSet::new(alloc)?,
        })
    }

    /// The standing blame of a group.
    pub(super) fn of(&self, group: GroupId) -> Option<StandingBlame>
        ensures { result ≡ blame_at self.now group.0 }
    {
        blame_of(&self.of_group, group)
    }

    /// Against another target a blame says nothing.
    pub(super) fn clear(&mut self)
        ensures none { (group : ℕ) → blame_at self.new group ≡ None }
        ensures groups { length self.new ≤ 65536 }
    {
        clear_members(&mut self.of_group, &self.noted);
        self.noted.clear();
    }

    /// After a return of a task. Of one that doesn't wait no blame stands. Mostly nobody waits, which a look at one word
    /// tells.
    #[inline(always)]
    pub(super) fn popped(&mut self, waiting: &NumberSet, tasks: &TaskTable, task: TaskId)
        ensures blames { (group : ℕ) → blame_at self.new group ≡ (if has waiting.now task.0 then looked_at tasks.now task.0 group (blame_at self.old group) else blame_at self.old group) }
        ensures groups { length self.new ≤ 65536 }
    {
        // For the proof alone, which knows what every value keeps once a field is read.
        let _ = &self.of_group;
        if !waiting.is_empty() && waiting.contains(task.0) {
            self.look_again(tasks, task);
        }
    }

    /// The group's blame goes where it names a frame of this task that is on the stack no longer.
    fn look_again(&mut self, tasks: &TaskTable, task: TaskId)
        ensures blames { (group : ℕ) → blame_at self.new group ≡ looked_at tasks.now task.0 group (blame_at self.old group) }
        ensures groups { length self.new ≤ 65536 }
    {
        // For the proof alone, which knows what every value keeps once a field is read.
        let _ = &self.of_group;
        let Some(live) = tasks.get(task) else {
            return;
        };
        let group = live.group();
        let Some(blame) = self.of(group) else {
            return;
        };
        if blame.task.0 != task.0 {
            return;
        }
        if live.has_frame(blame.serial) {
            return;
        }
        self.of_group.put(group.0, None, None);
    }

    /// The group of a task gets a blame that was found of it, if it has none.
    pub(super) fn note_own(&mut self, tasks: &TaskTable, task: TaskId, found: Option<StandingBlame>)
        ensures blames { (group : ℕ) → group < 65536 → blame_at self.new group ≡ (if is_in group (slot tasks.now task.0) then or_blame (blame_at self.old group) found else blame_at self.old group) }
        ensures groups { length self.new ≤ 65536 }
    {
        // For the proof alone, which knows what every value keeps once a field is read.
        let _ = &self.of_group;
        let Some(blame) = found else {
            return;
        };
        let Some(group) = tasks.group_of(task) else {
            return;
        };
        set_if_none(&mut self.of_group, &mut self.noted, group, blame);
    }

    /// After a scan: a group without a blame gets that of the first member that was refused, if
    /// that was for a frame. The groups of which a member was refused are then those of the set.
    #[inline(always)]
    pub(super) fn note(&mut self, refused: &mut NumberSet, tasks: &TaskTable, verdicts: &[Verdict])
        ensures blames { (group : ℕ) → group < 65536 → blame_at self.new group ≡ or_blame (blame_at self.old group) (found_by tasks.now group verdicts.now) }
        ensures groups { length self.new ≤ 65536 }
        ensures refused { (group : ℕ) → group < 65536 → has refused.new group ≡ list_any (is_found tasks.now true group) verdicts.now }
    {
        refused.clear();
        decide_all(
            &mut self.of_group,
            &mut self.noted,
            refused,
            tasks,
            verdicts,
        );
    }
}

/// The standing blame of a group, if it has one.
#[inline(always)]
fn blame_of(of_group: &BlameTable, group: GroupId) -> Option<StandingBlame>
    ensures value { result ≡ blame_at of_group.now group.0 }
    ensures few { length of_group.now ≤ 65536 }
{
    match of_group.get(group.0) {
        Some(blame) => blame,
        None => None,
    }
}

/// Takes out the blames of some groups, of which alone there are any.
fn clear_members(of_group: &mut BlameTable, groups: &NumberSet)
    requires count { length of_group.old ≤ 65536 }
    requires others { (group : ℕ) → has groups.now group ≡ false → blame_at of_group.old group ≡ None }
    ensures none { (group : ℕ) → blame_at of_group.new group ≡ None }
    ensures count { length of_group.new ≤ 65536 }
{
    for number in groups {
        of_group.put(number, None, None);
    }
}

/// The verdicts are by increasing task number: the first that refuses a member of a group decides.
#[inline(always)]
fn decide_all(
    of_group: &mut BlameTable,
    noted: &mut NumberSet,
    refused: &mut NumberSet,
    tasks: &TaskTable,
    verdicts: &[Verdict],
)
    requires count { length of_group.old ≤ 65536 }
    requires others { (group : ℕ) → has noted.old group ≡ false → blame_at of_group.old group ≡ None }
    requires fresh { (group : ℕ) → has refused.old group ≡ false }
    ensures blames { (group : ℕ) → group < 65536 → blame_at of_group.new group ≡ or_blame (blame_at of_group.old group) (found_by tasks.now group verdicts.now) }
    ensures count { length of_group.new ≤ 65536 }
    ensures others { (group : ℕ) → has noted.new group ≡ false → blame_at of_group.new group ≡ None }
    ensures refused { (group : ℕ) → group < 65536 → has refused.new group ≡ list_any (is_found tasks.now true group) verdicts.now }
{
    for verdict in verdicts {
        decide(of_group, noted, refused, tasks, verdict);
    }
}

/// Where this verdict is the first that refuses a member of its group, it decides of the group.
fn decide(
    of_group: &mut BlameTable,
    noted: &mut NumberSet,
    refused: &mut NumberSet,
    tasks: &TaskTable,
    verdict: &Verdict,
)
    requires { length of_group.old ≤ 65536 }
    ensures { IsDecided (λ group. told_of tasks.now group verdict.now) of_group.old of_group.new noted.old noted.new refused.old refused.new }
{
    let Some(why) = verdict.blame else {
        return;
    };
    let Some(group) = tasks.group_of(verdict.task) else {
        return;
    };
    if refused.contains(group.0) {
        return;
    }
    refused.insert(group.0);
    let Blame::Frame(serial) = why else {
        return;
    };
    let blame = StandingBlame {
        task: verdict.task,
        serial,
    };
    set_if_none(of_group, noted, group, blame);
}

/// A group gets a blame, if it has none.
fn set_if_none(
    of_group: &mut BlameTable,
    noted: &mut NumberSet,
    group: GroupId,
    blame: StandingBlame,
)
    requires count { length of_group.old ≤ 65536 }
    ensures blames { (g : ℕ) → blame_at of_group.new g ≡ (if nat_eq g group.0 then or_blame (blame_at of_group.old g) (Some blame) else blame_at of_group.old g) }
    ensures count { length of_group.new ≤ 65536 }
    ensures others { ((g : ℕ) → has noted.old g ≡ false → blame_at of_group.old g ≡ None) → (g : ℕ) → has noted.new g ≡ false → blame_at of_group.new g ≡ None }
{
    if blame_of(of_group, group).is_some() {
        return;
    }
    noted.insert(group.0);
    of_group.put(group.0, Some(blame), None);
}
