//! Runs of desks, each of which starts here.
ghost use Rattle.std.specs.Prelude.{◌≡◌};
ghost use Rattle.lp_board.specs.Blanks.{name_of};

use super::meets::Marks;
use super::*;
use lp_desk::Launched;

/// A desk, who may send to it and read its board, and what all are called with.
pub(super) struct Run<'a, M: Consistency, N: DeskName, R: Wait> {
    pub(super) rt: &'a R,
    pub(super) alloc: Global,
    /// None after a close.
    pub(super) desk: Option<Desk<M, N, Gate<'a>, &'a R>>,
    pub(super) hands: Hands<N>,
    /// None before a close.
    pub(super) journal: Option<Journal>,
}

/// By hand, so that the proof of who owns one lets go of it in one step, not field by field.
impl<'a, M: Consistency, N: DeskName, R: Wait> Drop for Run<'a, M, N, R> {
    fn drop(self) {
        let Run {
            rt: _,
            alloc: _,
            desk: _,
            hands: _,
            journal: _,
        } = self;
    }
}

impl<'a, M: Consistency, N: DeskName, R: Wait> Run<'a, M, N, R> {
    /// A desk at its start.
    fn new(
        rt: &'a R,
        alloc: Global,
        launched: Launched<M, N, Gate<'a>, &'a R>,
    ) -> Run<'a, M, N, R> {
        let Launched {
            desk,
            seats,
            control,
            readers,
        } = launched;
        Run {
            rt,
            alloc,
            desk: Some(desk),
            hands: Hands {
                seats,
                control: Some(control),
                readers,
                told: None,
            },
            journal: None,
        }
    }

    /// Closes the desk with all seats and the control, which come back where it isn't closed, for the cause that is given.
    /// None where it was closed before, or has no control.
    pub(super) fn close(&mut self) -> Option<Result<(), CloseCause>> {
        let control = self.hands.control.take()?;
        let desk = self.desk.take()?;
        let seats = self.hands.all_seats(self.alloc);
        match desk.close(self.rt, self.alloc, seats, control) {
            Ok(closed) => {
                self.journal = Some(closed.journal);
                Some(Ok(()))
            }
            Err(unclosed) => Some(Err(self.take_unclosed(unclosed))),
        }
    }

    /// Takes what is handed back, and says why.
    fn take_unclosed(&mut self, unclosed: Unclosed<N>) -> CloseCause {
        let Unclosed {
            journal,
            told: _,
            seats,
            control,
            cause,
        } = unclosed;
        self.journal = Some(journal);
        self.hands.seats = seats;
        self.hands.control = Some(control);
        cause
    }

    /// Whether the desk is closed, and its journal has so many entries.
    pub(super) fn closes_with(&mut self, count: usize) -> bool {
        matches!(self.close(), Some(Ok(()))) && self.has_entries(count)
    }

    /// Whether the desk isn't closed, for this cause.
    pub(super) fn closes_to(&mut self, cause: CloseCause) -> bool {
        match self.close() {
            Some(Err(found)) => found == cause,
            _ => false,
        }
    }

    /// Whether the journal has so many entries.
    fn has_entries(&self, count: usize) -> bool {
        match &self.journal {
            Some(journal) => journal.entries().len() == count,
            None => false,
        }
    }

    /// Whether this is what the audit of the journal finds of the control and these seats.
    pub(super) fn audits_to(&self, seats: &[Seat], found: Result<(), CloseCause>) -> bool {
        match (&self.journal, &self.hands.control) {
            (Some(journal), Some(control)) => journal.audit(self.alloc, seats, control) == found,
            _ => false,
        }
    }
}

impl<'a, M: Consistency + Sync, N: DeskName, R: Threads + Wait + Sync> Run<'a, M, N, R> {
    /// What the desk says to an event of the seat at a place, or of the control where there is none.
    pub(super) fn send(&mut self, place: Option<usize>, event: Event) -> Said {
        match (&self.desk, place) {
            (Some(desk), Some(place)) => {
                submit(self.rt, self.alloc, desk, &mut self.hands, place, event)
            }
            (Some(desk), None) => command(self.rt, self.alloc, desk, &mut self.hands, event),
            (None, _) => Said::Other,
        }
    }

    /// Whether the desk answers each row as it should.
    pub(super) fn takes(&mut self, rows: &[Row]) -> bool {
        for (place, event, said) in rows {
            if self.send(*place, *event) != *said {
                return false;
            }
        }
        true
    }
}

/// What a desk says to an event of the seat at a place.
pub(super) fn submit<M: Consistency, N: DeskName, R: Wait>(
    rt: &R,
    alloc: Global,
    desk: &Desk<M, N, Gate<'_>, &R>,
    hands: &mut Hands<N>,
    place: usize,
    event: Event,
) -> Said {
    let Some(seat) = hands.seat(place) else {
        return Said::Other;
    };
    match desk.submit(rt, alloc, seat, event) {
        Ok(done) => hands.take_answer(place, done),
        Err(turned) => hands.take_turned(place, turned),
    }
}

/// What a desk says to an event of the control.
pub(super) fn command<M: Consistency + Sync, N: DeskName, R: Threads + Wait + Sync>(
    rt: &R,
    alloc: Global,
    desk: &Desk<M, N, Gate<'_>, &R>,
    hands: &mut Hands<N>,
    event: Event,
) -> Said {
    let Some(control) = hands.control.take() else {
        return Said::Other;
    };
    match desk.command(rt, alloc, control, event) {
        Ok(done) => hands.take_commanded(done),
        Err(turned) => hands.take_control(turned),
    }
}

/// What is done with a desk from its start.
#[derive(Clone, Copy)]
pub(super) enum Play<'a> {
    /// It answers rows, and is closed with so many entries.
    Rows(&'a [Row], usize),
    /// It answers rows, each of which is sent once more where an allocation failed, and is closed.
    Again(&'a [Row]),
    /// It takes an event while the first piece of a walk is judged.
    Meanwhile(&'a Marks),
    /// Its reader sees what it should up to the close, and nothing after it.
    Shown,
    /// Its reader looks all along a stop.
    Watched,
    /// All its readers see an entry.
    Seen,
    /// Its reader sees the task of the highest number.
    Highest,
    /// It is full after 1,000,000 events, all of which its reader sees.
    Filled,
    /// It misses a seat at the close.
    KeptBack,
    /// It leaves its seats, the first of which has sent `enter 1`.
    Entered,
    /// Its seat is told from those that A left.
    ToldApart,
    /// It leaves its second seat and its control.
    Parted,
    /// It isn't closed after an event from the seat that A left.
    Stranger,
    /// It isn't closed with the control that A left.
    Differs,
}

/// What one desk leaves for the next.
pub(super) struct Parts {
    pub(super) seats: Vec<Seat>,
    pub(super) control: Option<Control>,
}

/// By hand, so that the proof of who owns one lets go of it in one step, not field by field.
impl Drop for Parts {
    fn drop(self) {
        let Parts {
            seats: _,
            control: _,
        } = self;
    }
}

impl Parts {
    /// Where no desk has left anything.
    pub(super) fn none(alloc: Global) -> Parts {
        Parts {
            seats: Vec::new(alloc),
            control: None,
        }
    }
}

/// Whether all goes as it should in this play.
fn plays<M: Consistency + Send + Sync, N: DeskName + Send + Sync, R: Threads + Wait + Sync>(
    run: &mut Run<'_, M, N, R>,
    parts: &mut Parts,
    play: Play<'_>,
) -> bool {
    match play {
        Play::Rows(rows, entries) => run.takes(rows) && run.closes_with(entries),
        Play::Again(rows) => memory::is_played(run, rows),
        Play::Meanwhile(marks) => meets::is_taken_meanwhile(run, marks),
        Play::Shown => boards::is_shown(run),
        Play::Watched => boards::is_watched(run),
        Play::Seen => boards::is_seen(run),
        Play::Highest => boards::is_highest_shown(run),
        Play::Filled => limits::is_filled(run),
        Play::KeptBack => threads::is_kept_back(run, parts),
        Play::Entered => closes::enters(run, parts),
        Play::ToldApart => closes::is_told_apart(run, parts),
        Play::Parted => closes::leaves_parts(run, parts),
        Play::Stranger => closes::meets_a_stranger(run, parts),
        Play::Differs => closes::meets_another(run, parts),
    }
}

/// The tasks that a desk starts with, the readers of its board, the workers of its scans, and what those pass.
#[derive(Clone, Copy)]
pub(super) struct Setting<'a> {
    pub(super) boots: &'a [(TaskId, Class)],
    pub(super) readers: usize,
    pub(super) workers: usize,
    pub(super) gate: Gate<'a>,
}

/// One task, in user space.
pub(super) const OF_FIRST: Setting<'static> = Setting {
    boots: &FIRST,
    readers: 1,
    workers: 2,
    gate: Gate::Open,
};

/// Two tasks, in user space.
pub(super) const OF_BOTH: Setting<'static> = Setting {
    boots: &BOTH,
    readers: 1,
    workers: 2,
    gate: Gate::Open,
};

/// Whether there is such a desk, and all goes as it should in a play with it, where no desk has left anything.
pub(super) fn is_right<M: Consistency + Send + Sync, R: Threads + Wait + Sync>(
    rt: &R,
    alloc: Global,
    model: M,
    setting: Setting<'_>,
    play: Play<'_>,
) -> bool {
    let mut parts = Parts::none(alloc);
    matches!(
        with_desk(rt, alloc, model, setting, play, &mut parts),
        Ok(true)
    )
}

/// Whether all goes as it should in a play with a desk that starts so; or why there is no desk.
pub(super) fn with_desk<M: Consistency + Send + Sync, R: Threads + Wait + Sync>(
    rt: &R,
    alloc: Global,
    model: M,
    setting: Setting<'_>,
    play: Play<'_>,
    parts: &mut Parts,
) -> Result<bool, LaunchFault> {
    match blank(alloc, model, setting.boots, setting.readers) {
        Ok(blank) => played::<M, Brand, R>(rt, alloc, blank, setting, play, parts),
        Err(fault) => Err(fault),
    }
}

fn played<M: Consistency + Send + Sync, N: DeskName + Send + Sync, R: Threads + Wait + Sync>(
    rt: &R,
    alloc: Global,
    blank: Blank<M>,
    setting: Setting<'_>,
    play: Play<'_>,
    parts: &mut Parts,
) -> Result<bool, LaunchFault>
    requires { name_of M.rules blank ≡ N.desk }
{
    match Desk::<M, N, Gate<'_>, &R>::launch(rt, alloc, blank, setting.workers, setting.gate) {
        Ok(launched) => Ok(plays(&mut Run::new(rt, alloc, launched), parts, play)),
        Err(fault) => Err(fault),
    }
}
