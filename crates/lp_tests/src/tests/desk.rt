//! Runs of desks under `hybrid`, with the replies that are worked out by hand.

mod boards;
mod closes;
mod limits;
mod meets;
mod memory;
mod pieces;
mod run;
mod scans;
mod threads;
mod walks;

use crate::tests::patched::patched;
use crate::tests::said::{Said, in_short};
use lp_board::{Blank, BoardReader, DeskName, LaunchFault, Told};
use lp_desk::{Commanded, Desk, Submitted, Unclosed};
use lp_log::{CloseCause, Control, Journal, Seat, Turned, TurnedBy};
use lp_model::Consistency;
use lp_models::Hybrid;
use lp_stack::{Class, TaskId};
use lp_symbols::SymId;
use lp_transition::{BootFault, Event, Halt, Reply};
use meets::Gate;
use run::{OF_BOTH, OF_FIRST, Parts, Play, Run, Setting, is_right, with_desk};
use std::alloc::Global;
use std::marker::Brand;
use std::mem::replace;
use std::sync::Wait;
use std::thread::Threads;

const A: SymId = SymId(0);

const ONE: TaskId = TaskId(1);

const TWO: TaskId = TaskId(2);

/// One task, in user space.
const FIRST: [(TaskId, Class); 1] = [(ONE, Class::Normal)];

/// Two tasks, in user space.
const BOTH: [(TaskId, Class); 2] = [(ONE, Class::Normal), (TWO, Class::Normal)];

const NO_MEMORY: LaunchFault = LaunchFault::Boot(BootFault::NoMemory);

/// How a desk with these tasks starts, which has so many readers.
fn blank<M: Consistency>(
    alloc: Global,
    model: M,
    boots: &[(TaskId, Class)],
    readers: usize,
) -> Result<Blank<M>, LaunchFault> {
    match patched(alloc) {
        Ok(patches) => Blank::new(alloc, model, patches, boots, readers),
        Err(_) => Err(NO_MEMORY),
    }
}

/// What the answer to an event says; Other where there is none.
fn answer_in_short(answer: Result<Reply, Halt>) -> Said {
    match answer {
        Ok(reply) => in_short(&reply),
        Err(_) => Said::Other,
    }
}

/// An event with its answer, and the place of the seat that sends it; the control sends it where there is none.
type Row = (Option<usize>, Event, Said);

/// A transition, and a stop at which the group 0 goes over, the last.
const STOP: [Row; 2] = [
    (None, Event::Enable, Said::Done),
    (None, Event::Stop, Said::SwitchedLast(0)),
];

/// All that may send to a desk and read its board, and what was told last.
struct Hands<N: DeskName> {
    seats: Vec<Seat>,
    /// None while an event of the control is under way.
    control: Option<Control>,
    readers: Vec<BoardReader<N>>,
    told: Option<Told<N>>,
}

/// By hand, so that the proof of who owns one lets go of it in one step, not field by field.
impl<N: DeskName> Drop for Hands<N> {
    fn drop(self) {
        let Hands {
            seats: _,
            control: _,
            readers: _,
            told: _,
        } = self;
    }
}

impl<N: DeskName> Hands<N> {
    /// The seat at a place, handed out.
    fn seat(&mut self, place: usize) -> Option<Seat> {
        if place < self.seats.len() {
            Some(self.seats.remove(place))
        } else {
            None
        }
    }

    /// All seats, handed out.
    fn all_seats(&mut self, alloc: Global) -> Vec<Seat> {
        replace(&mut self.seats, Vec::new(alloc))
    }

    /// The seats by themselves.
    fn seated(&mut self, alloc: Global) -> Hands<N> {
        Hands {
            seats: self.all_seats(alloc),
            control: None,
            readers: Vec::new(alloc),
            told: None,
        }
    }

    /// Takes a seat back at its place.
    fn take_seat(&mut self, place: usize, seat: Seat) -> bool {
        place <= self.seats.len() && self.seats.insert(place, seat).is_ok()
    }

    /// Takes the seat of a child, which comes last.
    fn take_child(&mut self, child: Option<Seat>) -> bool {
        match child {
            Some(child) => self.seats.push(child).is_ok(),
            None => true,
        }
    }

    /// Takes the answer to the seat at a place, and says what it says.
    fn take_answer(&mut self, place: usize, done: Submitted<N>) -> Said {
        let Submitted {
            seat,
            reply,
            told,
            child,
        } = done;
        self.told = Some(told);
        if self.take_seat(place, seat) && self.take_child(child) {
            in_short(&reply)
        } else {
            Said::Other
        }
    }

    /// Takes back the seat at a place whose event was turned back.
    fn take_turned(&mut self, place: usize, turned: Turned<Seat>) -> Said {
        let Turned { part, cause } = turned;
        if self.take_seat(place, part) {
            Said::Turned(cause)
        } else {
            Said::Other
        }
    }

    /// Takes the answer to the control, and says what it says.
    fn take_commanded(&mut self, done: Commanded<N>) -> Said {
        let Commanded {
            control,
            reply,
            told,
        } = done;
        self.control = Some(control);
        self.told = Some(told);
        in_short(&reply)
    }

    /// Takes back the control whose event was turned back.
    fn take_control(&mut self, turned: Turned<Control>) -> Said {
        let Turned { part, cause } = turned;
        self.control = Some(part);
        Said::Turned(cause)
    }
}
