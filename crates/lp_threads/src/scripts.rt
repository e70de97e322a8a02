//! The events of a trace, dealt out to those who send them.
ghost use Rattle.std.specs.Prelude.{◌≡◌, [], All, None, Some, length, IfOk, OnOk};
ghost use Rattle.lp_log.specs.Seats.{owner};
ghost use Rattle.lp_threads.specs.Plays.{events_of, events_of_control};
ghost use Rattle.lp_threads.specs.inside.Dealt.{AreMore, IsDealt};

use crate::trace_name::TraceName;
use lp_log::owner;
use lp_numbers::NUMBERS;
use lp_stack::TaskId;
use lp_transition::Event;
use std::alloc::{AllocError, Global};
use std::marker::PhantomData;

/// For each task number the events that are its script, and those of the control, each in the order of the trace.
pub(crate) struct Scripts<S: TraceName> {
    tasks: Vec<Vec<Event>>,
    control: Vec<Event>,
    of: PhantomData<S>,
    ghost wide: { length tasks.items ≡ 65536 },
    ghost dealt: { IsDealt S.events tasks.items control.items },
}

/// By hand, so that the proof of who owns one lets go of it in one step, not field by field.
impl<S: TraceName> Drop for Scripts<S> {
    fn drop(self) {
        let Scripts {
            tasks: _,
            control: _,
            of: _,
        } = self;
    }
}

impl<S: TraceName> Scripts<S> {
    /// Deals out these events: a fork to its parent, scans and control events to the control.
    pub(crate) fn deal(alloc: Global, events: &[Event]) -> Result<Scripts<S>, AllocError>
        requires { events.now ≡ S.events }
    {
        let mut tasks = no_scripts(alloc)?;
        let mut control = Vec::new(alloc);
        for event in events {
            add(tasks.as_mut_slice(), &mut control, *event)?;
        }
        Ok(Scripts {
            tasks,
            control,
            of: PhantomData,
        })
    }

    /// The script of a task.
    pub(crate) fn of(&self, task: TaskId) -> &[Event]
        ensures script { result.now ≡ events_of task.0 S.events }
        ensures owned { All (λ event. owner event ≡ Some task.0) result.now }
    {
        self.tasks[usize::from(task.0)].as_slice()
    }

    /// The script of the control.
    pub(crate) fn control(&self) -> &[Event]
        ensures script { result.now ≡ events_of_control S.events }
        ensures owned { All (λ event. owner event ≡ None) result.now }
    {
        self.control.as_slice()
    }
}

/// Adds the event to the script that it belongs to.
fn add(tasks: &mut [Vec<Event>], control: &mut Vec<Event>, event: Event) -> Result<(), AllocError>
    requires { length tasks.old ≡ 65536 }
    ensures wide { length tasks.new ≡ 65536 }
    ensures added { OnOk result (AreMore tasks.old control.old.items event tasks.new control.new.items) }
{
    match owner(event) {
        Some(task) => tasks[usize::from(task)].push(event)?,
        None => control.push(event)?,
    }
    Ok(())
}

/// An empty script for each task number.
fn no_scripts(alloc: Global) -> Result<Vec<Vec<Event>>, AllocError>
    ensures wide { IfOk result (λ scripts. length scripts.items ≡ 65536) }
    ensures empty { IfOk result (λ scripts. IsDealt [] scripts.items []) }
{
    let mut scripts = Vec::with_capacity(alloc, NUMBERS)?;
    for _task in 0..NUMBERS {
        scripts.push(Vec::new(alloc))?;
    }
    Ok(scripts)
}
