//! Events, refusals and replies, each call once.

use super::*;
use lp_model::ForkKind;
use lp_transition::{GroupList, Refusal};

/// An event, whether it is a scan, and whether it is a control event.
const KINDS: [(Event, bool, bool); 9] = [
    (Event::Call(ONE, A), false, false),
    (Event::Fork(ONE, TWO, ForkKind::Own), false, false),
    (Event::Idle(ONE), false, false),
    (Event::Resched(ONE), false, false),
    (Event::Walk, true, false),
    (Event::Stop, true, false),
    (Event::Enable, false, true),
    (Event::Disable, false, true),
    (Event::Reverse, false, true),
];

/// Whether each event is of its kind.
fn are_of_their_kinds() -> bool {
    for (event, scan, control) in &KINDS {
        if event.is_scan() != *scan || event.is_control() != *control {
            return false;
        }
    }
    true
}

#[test]
fn events_have_kinds(rt: HostRuntime) {
    assert!(rt; are_of_their_kinds());
}

#[test]
fn refusals_have_numbers(rt: HostRuntime) {
    assert!(rt; have_numbers());
}

fn have_numbers() -> bool {
    Refusal::UnknownTask.number() == 1
        && Refusal::StackFull.number() == 7
        && Refusal::AlreadyThere.number() == 12
}

/// The groups 3 and 7.
const BOTH: [GroupId; 2] = [GroupId(3), GroupId(7)];

/// A reply by which they switch and the transition is complete.
fn both_over(alloc: Global) -> Result<Reply, AllocError> {
    let groups = GroupList::from_vec(alloc, Vec::from_slice(alloc, &BOTH)?)?;
    Ok(Reply {
        what: What::Switched(groups),
        completed: true,
    })
}

/// Whether they alone switch, as each reader of the list says.
fn are_both(what: What) -> bool {
    let What::Switched(list) = what else {
        return false;
    };
    let told = list.len() == 2 && !list.is_empty() && list.as_slice() == BOTH.as_slice();
    told && list.into_vec().pop() == Some(GroupId(7))
}

/// Whether the copy of a reply says so.
fn is_copied(alloc: Global, reply: &Reply) -> bool {
    match reply.copy(alloc) {
        Ok(Reply { what, completed }) => completed && are_both(what),
        Err(_) => false,
    }
}

/// Whether that of such a reply does.
fn is_reply_copied(alloc: Global) -> bool {
    match both_over(alloc) {
        Ok(reply) => is_copied(alloc, &reply),
        Err(_) => false,
    }
}

/// Whether the copy of a call that ran says at which level.
fn is_run_copied(alloc: Global) -> bool {
    matches!(What::Ran(Level(2)).copy(alloc), Ok(What::Ran(Level(2))))
}

#[test]
fn replies_are_copied(rt: HostRuntime) {
    assert!(rt; is_reply_copied(rt.alloc()) && is_run_copied(rt.alloc()));
}
