//! Tasks with their frames, and views that are kept.
use super::*;
use lp_stack::ViewCopy;

/// A call of `c` at level 1.
fn called(serial: u32) -> Frame {
    frame(C, 1, serial)
}

/// A task of a class in the kernel, with no frames, in a box: docs/GATE.md says why.
fn in_kernel(alloc: Global, class: Class) -> Option<Box<TaskStack>> {
    Box::new(alloc, TaskStack::new(TaskId(7), class, Mode::Kernel)).ok()
}

/// Whether a task has room for 100 calls.
fn has_room(stack: &mut TaskStack) -> bool {
    for serial in 0..100 {
        if stack.push(called(serial)) != Ok(()) {
            return false;
        }
    }
    true
}

/// Whether a task of 100 frames has room for one in place of the last alone.
fn has_room_for_no_more(stack: &mut TaskStack) -> bool {
    stack.push(called(100)) == Err(called(100))
        && stack.view().frames.len() == 100
        && stack.pop() == Some(called(99))
        && stack.push(called(101)) == Ok(())
        && stack.pop() == Some(called(101))
}

/// Whether a task has room for 100 frames.
fn has_room_for_100(alloc: Global) -> bool {
    match in_kernel(alloc, Class::Normal) {
        Some(mut stack) => has_room(&mut stack) && has_room_for_no_more(&mut stack),
        None => false,
    }
}

#[test]
fn refuses_the_101st_frame(rt: HostRuntime) {
    assert!(rt; has_room_for_100(rt.alloc()));
}

/// Whether a task has no frame, and then one.
fn has_its_first_frame(stack: &mut TaskStack) -> bool {
    stack.pop() == None && stack.push(called(1)) == Ok(())
}

/// Whether a view that was kept is that of the task until its mode changes.
fn tells_modes(stack: &mut TaskStack, kept: &ViewCopy) -> bool {
    let same = kept.same_as(&stack.view());
    stack.set_mode(Mode::Asleep);
    same && !kept.same_as(&stack.view()) && kept.view().mode == Mode::Kernel
}

/// Whether, in the mode of then, it is that of the task until its frames change.
fn tells_frames(stack: &mut TaskStack, kept: &ViewCopy) -> bool {
    stack.set_mode(Mode::Kernel);
    stack.push(called(2)) == Ok(()) && !kept.same_as(&stack.view())
}

/// Whether it has the one frame of then, and the task is who it was.
fn is_as_it_was(stack: &TaskStack, kept: &ViewCopy) -> bool {
    kept.view().frames == [called(1)].as_slice()
        && stack.view().task == TaskId(7)
        && stack.view().class == Class::Idle
}

/// Whether a view stays what it was, and tells each change of the task.
fn stays(stack: &mut TaskStack, kept: &ViewCopy) -> bool {
    tells_modes(stack, kept) && tells_frames(stack, kept) && is_as_it_was(stack, kept)
}

/// Whether a view is kept while the task changes.
fn is_kept(alloc: Global, stack: &mut TaskStack) -> bool {
    match Box::new(alloc, ViewCopy::of(&stack.view())) {
        Ok(kept) => stays(stack, &kept),
        Err(_) => false,
    }
}

/// Whether one is of a new task, which gets its first frame before.
fn is_kept_of_a_task(alloc: Global) -> bool {
    match in_kernel(alloc, Class::Idle) {
        Some(mut stack) => has_its_first_frame(&mut stack) && is_kept(alloc, &mut stack),
        None => false,
    }
}

#[test]
fn keeps_a_view(rt: HostRuntime) {
    assert!(rt; is_kept_of_a_task(rt.alloc()));
}
