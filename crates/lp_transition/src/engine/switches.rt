//! The tasks that a scan switches.
ghost use Rattle.std.specs.Prelude.{◌≡◌, ℕ, true, false};
ghost use Rattle.lp_machine.specs.Table.{slot};
ghost use Rattle.lp_transition.specs.Weigh.{is_switched};
ghost use Rattle.lp_transition.specs.inside.ScanSteps.{is_judged, is_unrefused, task_switches, IsTaskSwitched, AreSwitched};

use super::dispatch::is_switched;
use super::step::Step;
use lp_model::Verdict;
use lp_numbers::NumberSet;
use lp_stack::{Level, TaskId};
use lp_tasks::TaskTable;

/// Switches the tasks at which a scan looked whose groups it doesn't refuse: those were admitted. It
/// goes over them only where there are any. Never allocates.
pub(super) fn switch_scanned(
    tasks: &mut TaskTable,
    waiting: &mut NumberSet,
    refused: &NumberSet,
    step: &Step,
    target: Level,
)
    requires { is_switched step.now.reply.what ≡ false → (t : ℕ) → is_judged step.now.verdicts t ≡ true → task_switches (is_unrefused refused.now) (slot tasks.old t) ≡ false }
    ensures { AreSwitched (is_judged step.now.verdicts) (is_unrefused refused.now) target.0 tasks.old tasks.new waiting.old waiting.new }
{
    if !is_switched(&step.reply().what) {
        return;
    }
    switch_tasks(tasks, waiting, refused, step.verdicts(), target);
}

/// Switches the tasks of these verdicts whose groups aren't refused.
fn switch_tasks(
    tasks: &mut TaskTable,
    waiting: &mut NumberSet,
    refused: &NumberSet,
    verdicts: &[Verdict],
    target: Level,
)
    ensures { AreSwitched (is_judged verdicts.now) (is_unrefused refused.now) target.0 tasks.old tasks.new waiting.old waiting.new }
{
    for verdict in verdicts {
        switch_task(tasks, waiting, refused, verdict.task, target);
    }
}

/// Switches a task, if its group isn't refused.
fn switch_task(
    tasks: &mut TaskTable,
    waiting: &mut NumberSet,
    refused: &NumberSet,
    task: TaskId,
    target: Level,
)
    ensures { IsTaskSwitched (is_unrefused refused.now) target.0 task.0 tasks.old tasks.new waiting.old waiting.new }
{
    let Some(live) = tasks.get(task) else {
        return;
    };
    if refused.contains(live.group().0) {
        return;
    }
    tasks.set_level(task, target);
    waiting.remove(task.0);
}
