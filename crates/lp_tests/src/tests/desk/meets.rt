//! Gates that only several threads can pass.
use super::run::{command, submit};
use super::*;
use lp_models::AllAtOnce;
use lp_scan::ScanGate;
use std::hint::spin_loop;
use std::sync::atomic::{AtomicBool, Ordering};
use std::thread::join;

/// How often a gate looks before it gives up.
const MOST_TURNS: u32 = 10_000_000;

/// Whether the flag is set before the turns are over.
fn is_set_in_time(flag: &AtomicBool) -> bool {
    for _turn in 0..MOST_TURNS {
        if flag.load(Ordering::SeqCst) {
            return true;
        }
        spin_loop();
    }
    false
}

/// Two marks, and whether somebody waited for one in vain.
#[derive(Drop)]
pub(super) struct Marks {
    first: AtomicBool,
    second: AtomicBool,
    gave_up: AtomicBool,
}

impl Marks {
    fn new() -> Marks {
        Marks {
            first: AtomicBool::new(false),
            second: AtomicBool::new(false),
            gave_up: AtomicBool::new(false),
        }
    }

    /// Sets the first mark, and waits for the second.
    fn first_meets_second(&self) {
        self.first.store(true, Ordering::SeqCst);
        if !is_set_in_time(&self.second) {
            self.gave_up.store(true, Ordering::SeqCst);
        }
    }

    /// Sets the second mark, and waits for the first.
    fn second_meets_first(&self) {
        self.second.store(true, Ordering::SeqCst);
        if !is_set_in_time(&self.first) {
            self.gave_up.store(true, Ordering::SeqCst);
        }
    }

    fn gave_up(&self) -> bool {
        self.gave_up.load(Ordering::SeqCst)
    }
}

/// What the pieces of a scan pass.
#[derive(Clone, Copy)]
pub(super) enum Gate<'a> {
    /// Holds nobody.
    Open,
    /// Holds the pieces 0 and 1 until the other has come.
    Meeting(&'a Marks),
    /// Holds piece 0 until a seat was answered.
    Holding(&'a Marks),
}

impl<'a> ScanGate for Gate<'a> {
    fn pass(&self, piece: usize) {
        match (self, piece) {
            (Gate::Meeting(marks) | Gate::Holding(marks), 0) => marks.first_meets_second(),
            (Gate::Meeting(marks), 1) => marks.second_meets_first(),
            _ => (),
        }
    }
}

/// The pieces of a walk are judged by threads of their own, and so are those of a stop.
#[test]
fn desk_pieces_meet(rt: HostRuntime) {
    assert!(rt; meet(&rt, rt.alloc(), Hybrid, &WALK));
    assert!(rt; meet(&rt, rt.alloc(), AllAtOnce, &STOP));
}

const WALK: [Row; 2] = [
    (None, Event::Enable, Said::Done),
    (None, Event::Walk, Said::Done),
];

/// Whether a desk answers two rows as it should, and no piece waited for another in vain.
fn meet<M: Consistency + Send + Sync, R: Threads + Wait + Sync>(
    rt: &R,
    alloc: Global,
    model: M,
    rows: &[Row],
) -> bool {
    let marks = Marks::new();
    let setting = Setting {
        gate: Gate::Meeting(&marks),
        ..OF_BOTH
    };
    is_right(rt, alloc, model, setting, Play::Rows(rows, 2)) && !marks.gave_up()
}

/// What is said to an event that is sent once piece 0 has come to the gate, which is told when it was answered.
fn submit_meanwhile<M: Consistency, N: DeskName, R: Wait>(
    rt: &R,
    alloc: Global,
    desk: &Desk<M, N, Gate<'_>, &R>,
    marks: &Marks,
    hands: &mut Hands<N>,
) -> Said {
    if !is_set_in_time(&marks.first) {
        return Said::Other;
    }
    let said = submit(rt, alloc, desk, hands, 0, Event::Enter(ONE));
    marks.second.store(true, Ordering::SeqCst);
    said
}

/// A walk that is judged under the lock would hold the seat back until the gate gives up.
#[test]
fn tasks_run_during_walk(rt: HostRuntime) {
    let marks = Marks::new();
    assert!(rt; are_both_taken(&rt, rt.alloc(), &marks));
    assert!(rt; !marks.gave_up());
}

/// Whether a desk whose gate holds the first piece of a walk takes both.
fn are_both_taken<R: Threads + Wait + Sync>(rt: &R, alloc: Global, marks: &Marks) -> bool {
    let setting = Setting {
        gate: Gate::Holding(marks),
        ..OF_BOTH
    };
    is_right(rt, alloc, Hybrid, setting, Play::Meanwhile(marks))
}

/// Whether a desk takes an event while the first piece of a walk is judged, and the walk.
pub(super) fn is_taken_meanwhile<
    M: Consistency + Send + Sync,
    N: DeskName + Send + Sync,
    R: Threads + Wait + Sync,
>(run: &mut Run<'_, M, N, R>, marks: &Marks) -> bool {
    let mut seated = run.hands.seated(run.alloc);
    run.send(None, Event::Enable) == Said::Done
        && walk_and_submit(run, marks, &mut seated) == (Said::Done, Said::Done)
}

/// What a desk says to a walk, and to an event that is sent while its first piece is judged.
fn walk_and_submit<
    M: Consistency + Send + Sync,
    N: DeskName + Send + Sync,
    R: Threads + Wait + Sync,
>(run: &mut Run<'_, M, N, R>, marks: &Marks, seated: &mut Hands<N>) -> (Said, Said) {
    let (rt, alloc, hands) = (run.rt, run.alloc, &mut run.hands);
    match &run.desk {
        Some(desk) => join(
            rt,
            || command(rt, alloc, desk, hands, Event::Walk),
            || submit_meanwhile(rt, alloc, desk, marks, seated),
        ),
        None => (Said::Other, Said::Other),
    }
}
