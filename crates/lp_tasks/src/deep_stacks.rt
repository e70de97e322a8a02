//! The stacks that the records of tasks have no room for.
ghost use Rattle.std.specs.Prelude.{◌≡◌, ℕ, ◌+◌, ◌<◌, ◌≤◌, ◌-◌, ◌&&◌, [], ◌∷◌, ◌++◌, true, not, length, nat_eq, if◌then◌else◌, is_some, count_by, None, Some, option_copied, IfOk, IfSome, vec_capacity};
ghost use Rattle.std.specs.Option.{ForSome};
ghost use Rattle.lp_numbers.specs.Numbers.{has, IsEmpty};
ghost use Rattle.lp_tasks.specs.inside.Deep.{deep_at, place_at, frames_at, count_free, deep_or, popped};

use crate::deep_stack::DeepStack;
use crate::live_task::OWN_FRAMES;
use lp_numbers::{NUMBERS, NumberSet};
use lp_stack::{Frame, TaskId};
use std::alloc::{AllocError, Global};
use std::marker::Model;

/// The stacks of the tasks whose record has no room for theirs. Only `new` and `copy` allocate.
///
/// There is room for a stack of each task, but arrays are made only where none is free, and an
/// array is free again once its stack fits the record: memory that nothing was written to costs
/// nothing.
///
/// Contracts see a list that says for each number which deep stack it has.
pub struct DeepStacks {
    /// For each task which array it has, as far as the greatest number that had one.
    places: Vec<Option<u16>>,
    stacks: Vec<DeepStack>,
    /// The arrays that no task has.
    free: NumberSet,
}

/// By hand, so that the proof of who owns one lets go of it in one step, not field by field.
impl Drop for DeepStacks {
    fn drop(self) {
        let DeepStacks {
            places: _,
            stacks: _,
            free: _,
        } = self;
    }
}

impl Model for DeepStacks {
    ghost use Rattle.std.specs.Prelude.{vec_capacity};
    ghost use Rattle.lp_tasks.specs.inside.Deep.{Deep, deep_of, IsStore};

    ghost Value = { Deep };

    ghost view = { λ s. deep_of s.places.items s.stacks.items };

    ghost invariant = { λ s. IsStore s.places.items s.stacks.items s.free (vec_capacity s.places) (vec_capacity s.stacks) };
}

impl DeepStacks {
    /// No task has a deep stack; AllocError where an allocation failed.
    pub fn new(alloc: Global) -> Result<DeepStacks, AllocError>
        ensures { IfOk result (λ deep. (t : ℕ) → deep_at deep t ≡ None) }
    {
        Ok(DeepStacks {
            places: Vec::with_capacity(alloc, NUMBERS)?,
            stacks: Vec::with_capacity(alloc, NUMBERS)?,
            free: NumberSet::new(alloc)?,
        })
    }

    /// The deep stack of a task; None where it has none.
    pub fn frames(&self, task: TaskId) -> Option<&[Frame]>
        ensures value { option_copied result ≡ deep_at self.now task.0 }
        ensures few { IfSome result (λ frames. length frames.now ≤ 100) }
    {
        let place = place_of(self.places.as_slice(), task)?;
        Some(self.stacks[usize::from(place)].frames())
    }

    /// Pushes a frame on the deep stack of a task. Where it has none, these lower frames are what it
    /// is pushed on.
    pub fn push(&mut self, task: TaskId, lower: &[Frame], frame: Frame)
        requires { length (deep_or lower.now (deep_at self.old task.0)) < 100 }
        ensures { (t : ℕ) → deep_at self.new t ≡ (if nat_eq t task.0 then Some (deep_or lower.now (deep_at self.old task.0) ++ frame ∷ []) else deep_at self.old t) }
    {
        match place_of(self.places.as_slice(), task) {
            Some(place) => self.stacks[usize::from(place)].push(frame),
            None => self.open(task, lower, frame),
        }
    }

    /// Pops a frame of the deep stack of a task, and gives its array back where the rest fits the
    /// record. Where it has none this answers false.
    pub fn pop(&mut self, task: TaskId) -> bool
        ensures deep { result ≡ is_some (deep_at self.old task.0) }
        ensures popped { (t : ℕ) → deep_at self.new t ≡ (if nat_eq t task.0 then popped (deep_at self.old task.0) else deep_at self.old t) }
    {
        let Some(place) = place_of(self.places.as_slice(), task) else {
            return false;
        };
        let left = self.stacks[usize::from(place)].pop();
        if left <= OWN_FRAMES {
            self.remove(task);
        }
        true
    }

    /// Gives back the array of a task, if it has one.
    pub fn remove(&mut self, task: TaskId)
        ensures { (t : ℕ) → deep_at self.new t ≡ (if nat_eq t task.0 then None else deep_at self.old t) }
    {
        if let Some(place) = place_of(self.places.as_slice(), task) {
            self.places[usize::from(task.0)] = None;
            self.free.insert(place);
        }
    }

    /// A copy of the stacks; an `Err` only where an allocation failed.
    pub fn copy(&self, alloc: Global) -> Result<DeepStacks, AllocError>
        ensures { IfOk result (λ copied. copied ≡ self.now) }
    {
        Ok(DeepStacks {
            places: copied_places(alloc, self.places.as_slice())?,
            stacks: copied_stacks(alloc, self.stacks.as_slice())?,
            free: self.free.copy(alloc)?,
        })
    }

    /// Gives a task an array, with these frames and one more.
    fn open(&mut self, task: TaskId, lower: &[Frame], frame: Frame)
        requires none { deep_at self.old task.0 ≡ None }
        requires few { length lower.now < 100 }
        ensures { (t : ℕ) → deep_at self.new t ≡ (if nat_eq t task.0 then Some (lower.now ++ frame ∷ []) else deep_at self.old t) }
    {
        let at = usize::from(task.0);
        reach(&mut self.places, at);
        let place = take_array(&mut self.stacks, &mut self.free);
        self.places[at] = Some(place);
        self.stacks[usize::from(place)].start(lower, frame);
    }
}

/// The array of a task; None where it has none.
fn place_of(places: &[Option<u16>], task: TaskId) -> Option<u16>
    ensures { result ≡ place_at places.now task.0 }
{
    match places.get(usize::from(task.0)) {
        Some(place) => *place,
        None => None,
    }
}

/// Makes the places up to this one, without an array where they are new.
fn reach(places: &mut Vec<Option<u16>>, place: usize)
    requires place { place < 65536 }
    requires room { 65536 ≤ vec_capacity places.old }
    requires few { length places.old.items ≤ 65536 }
    ensures same { (t : ℕ) → place_at places.new.items t ≡ place_at places.old.items t }
    ensures count { count_by is_some places.new.items ≡ count_by is_some places.old.items }
    ensures room { 65536 ≤ vec_capacity places.new }
    ensures few { length places.new.items ≤ 65536 }
    ensures reached { place < length places.new.items }
{
    while places.len() <= place {
        places.push_reserved(None);
    }
}

/// An array that is no task's: a free one, or a new one where none is free.
fn take_array(stacks: &mut Vec<DeepStack>, free: &mut NumberSet) -> u16
    requires room { 65536 ≤ vec_capacity stacks.old }
    requires few { length stacks.old.items ≤ 65536 }
    requires fewer { IsEmpty free.old → length stacks.old.items < 65536 }
    requires freed { (place : ℕ) → has free.old place ≡ true → place < length stacks.old.items }
    requires wide { length free.old ≡ 65536 }
    ensures within { result < length stacks.new.items }
    ensures unowned { result < length stacks.old.items → has free.old result ≡ true }
    ensures same { (place : ℕ) → frames_at stacks.new.items place ≡ frames_at stacks.old.items place }
    ensures more { length stacks.old.items ≤ length stacks.new.items }
    ensures counted { length stacks.new.items + count_free free.old ≡ length stacks.old.items + count_free free.new + 1 }
    ensures left { (place : ℕ) → has free.new place ≡ (has free.old place && not (nat_eq place result)) }
    ensures few { length stacks.new.items ≤ 65536 }
    ensures room { vec_capacity stacks.new ≡ vec_capacity stacks.old }
    ensures wide { length free.new ≡ 65536 }
{
    match free.next(0) {
        Some(place) => {
            free.remove(place);
            place
        }
        None => {
            let place = stacks.len();
            stacks.push_reserved(DeepStack::new());
            place as u16
        }
    }
}

/// A copy of the places, with room for one of each task.
fn copied_places(alloc: Global, places: &[Option<u16>]) -> Result<Vec<Option<u16>>, AllocError>
    requires { length places.now ≤ 65536 }
    ensures same { IfOk result (λ copied. copied.items ≡ places.now) }
    ensures room { IfOk result (λ copied. 65536 ≤ vec_capacity copied) }
{
    let mut copied = Vec::with_capacity(alloc, NUMBERS)?;
    for place in places {
        copied.push_reserved(*place);
    }
    Ok(copied)
}

/// A copy of the arrays, with room for one of each task.
fn copied_stacks(alloc: Global, stacks: &[DeepStack]) -> Result<Vec<DeepStack>, AllocError>
    requires { length stacks.now ≤ 65536 }
    ensures same { IfOk result (λ copied. copied.items ≡ stacks.now) }
    ensures room { IfOk result (λ copied. 65536 ≤ vec_capacity copied) }
{
    let mut copied = Vec::with_capacity(alloc, NUMBERS)?;
    for stack in stacks {
        copied.push_reserved(stack.copy());
    }
    Ok(copied)
}
