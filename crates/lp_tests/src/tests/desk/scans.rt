//! The calls of a log and of a book that nothing else here makes: quiet events, and scans by what was found of the tasks.
ghost use Rattle.std.specs.Prelude.{◌≡◌, IfOk};
ghost use Rattle.lp_model.specs.declared.check.CheckKind.TheVariants.{Walk};
ghost use Rattle.lp_transition.specs.Scan.{verdicts_of};
ghost use Rattle.lp_machine.specs.Table.{state_in};
ghost use Rattle.lp_board.specs.Blanks.{name_of};

use super::*;
use lp_desk::{Book, OpenedBook};
use lp_log::{Log, Opened};
use lp_model::{CheckKind, Verdict};
use lp_scan::{Judged, judge, scan_plain};
use lp_transition::Core;
use std::alloc::AllocError;

/// Task 1 sleeps in a call of `a` as the transition begins.
pub(super) const ASLEEP: [Event; 4] = [
    Event::Enter(ONE),
    Event::Call(ONE, A),
    Event::Sleep(ONE),
    Event::Enable,
];

/// What a walk finds of the waiting tasks themselves.
fn found<M: Consistency>(alloc: Global, core: &Core<M>) -> Result<Vec<Verdict>, AllocError>
    ensures { IfOk result (λ found. found.items ≡ verdicts_of M.rules Walk (state_in core.now)) }
{
    let views = core.views(alloc)?;
    scan_plain(
        alloc,
        core.model(),
        CheckKind::Walk,
        &core.aim(),
        views.as_slice(),
    )
}

/// It returns, and sleeps again.
pub(super) const RETURNS: [Event; 3] = [Event::Wake(ONE), Event::Ret(ONE), Event::Sleep(ONE)];

/// Whether a log takes these events.
pub(super) fn takes_all(alloc: Global, log: &mut Log<Hybrid>, events: &[Event]) -> bool {
    for event in events {
        if log.apply(alloc, *event).is_err() {
            return false;
        }
    }
    true
}

/// What a log says to a walk by its verdicts.
fn walk_by_verdicts(alloc: Global, log: &mut Log<Hybrid>) -> Said {
    match found(alloc, log.core()) {
        Ok(found) => answer_in_short(log.apply_scan(alloc, CheckKind::Walk, found.as_slice())),
        Err(_) => Said::Other,
    }
}

/// What a log says to a walk that the control sends.
fn walk_by_command<R: Threads + Sync>(
    rt: &R,
    alloc: Global,
    log: &mut Log<Hybrid>,
    control: Control,
) -> Said {
    match log.command(rt, alloc, 1, &Gate::Open, None, control, Event::Walk) {
        Ok(done) => in_short(&done.reply),
        Err(_) => Said::Other,
    }
}

/// Whether a log takes the first, and the task then returns and sleeps again.
fn takes_the_first(alloc: Global, log: &mut Log<Hybrid>) -> bool {
    takes_all(alloc, log, &ASLEEP)
        && walk_by_verdicts(alloc, log) == Said::Done
        && takes_all(alloc, log, &RETURNS)
}

/// A log of task 1, in a box, and its control.
pub(super) fn opened(alloc: Global) -> Option<(Box<Log<Hybrid>>, Control)> {
    let Ok(patches) = patched(alloc) else {
        return None;
    };
    match Log::open(alloc, Hybrid, patches, &FIRST) {
        Ok(Opened { log, control, .. }) => match Box::new(alloc, log) {
            Ok(log) => Some((log, control)),
            Err(_) => None,
        },
        Err(_) => None,
    }
}

fn log_takes_both<R: Threads + Sync>(rt: &R, alloc: Global) -> bool {
    match opened(alloc) {
        Some((mut log, control)) => {
            takes_the_first(alloc, &mut log)
                && walk_by_command(rt, alloc, &mut log, control) == Said::SwitchedLast(1)
        }
        None => false,
    }
}

#[test]
fn a_log_takes_a_walk_by_its_verdicts_and_a_command(rt: HostRuntime) {
    assert!(rt; log_takes_both(&rt, rt.alloc()));
}

#[test]
fn a_book_takes_events_and_scans(rt: HostRuntime) {
    assert!(rt; book_takes_both(&rt, rt.alloc()));
}

fn book_takes_both<R: Threads + Wait + Sync>(rt: &R, alloc: Global) -> bool {
    match blank(alloc, Hybrid, &FIRST, 1) {
        Ok(blank) => in_a_book::<Hybrid, Brand, R>(rt, alloc, blank),
        Err(_) => false,
    }
}

/// Whether a book of this start takes two walks: one by its verdicts, one that was judged before.
fn in_a_book<M: Consistency + Sync, N: DeskName, R: Threads + Wait + Sync>(
    rt: &R,
    alloc: Global,
    blank: Blank<M>,
) -> bool
    requires { name_of M.rules blank ≡ N.desk }
{
    match Book::<M, N>::open(rt, alloc, blank) {
        Ok(
            OpenedBook {
                mut book,
                seats: _,
                control: _,
                readers: _,
            },
        ) => {
            let is_right = takes_both(rt, alloc, &mut book);
            drop(book.shut(rt));
            is_right
        }
        Err(_) => false,
    }
}

fn takes_both<M: Consistency + Sync, N: DeskName, R: Threads + Wait + Sync>(
    rt: &R,
    alloc: Global,
    book: &mut Book<M, N>,
) -> bool {
    for event in &ASLEEP {
        if book.apply(rt, alloc, *event).is_err() {
            return false;
        }
    }
    walk_of(rt, alloc, book) == Said::Done && judged_walk_of(rt, alloc, book) == Said::Done
}

/// What a book says to a walk by its verdicts.
fn walk_of<M: Consistency, N: DeskName, R: Wait>(
    rt: &R,
    alloc: Global,
    book: &mut Book<M, N>,
) -> Said {
    match found(alloc, book.log().core()) {
        Ok(found) => answer_in_short(book.apply_scan(rt, alloc, CheckKind::Walk, found.as_slice())),
        Err(_) => Said::Other,
    }
}

/// What a book says to a walk that was judged before.
fn judged_walk_of<M: Consistency + Sync, N: DeskName, R: Threads + Wait + Sync>(
    rt: &R,
    alloc: Global,
    book: &mut Book<M, N>,
) -> Said {
    match judged_now(rt, alloc, book.log()) {
        Some(judged) => answer_in_short(book.apply_judged(rt, alloc, &judged)),
        None => Said::Other,
    }
}

/// What a walk finds of copies of the tasks.
pub(super) fn judged_now<M: Consistency + Sync, R: Threads + Sync>(
    rt: &R,
    alloc: Global,
    log: &Log<M>,
) -> Option<Judged<M>> {
    match log.batch(alloc) {
        Ok(batch) => judge(rt, alloc, 2, &Gate::Open, log.core().model(), batch).ok(),
        Err(_) => None,
    }
}
