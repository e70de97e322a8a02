//! What an event costs by an engine alone, through a log, through a desk with readers that read all along, and through a desk
//! whose seats own their parts.

mod events;
mod through_desk;
mod through_log;
mod through_owned;

pub use events::COUNT;
use events::count_beside;
use std::alloc::Global;
use std::io;
use std::sync::Wait;
use std::thread::Threads;
pub use through_log::log;

/// The way of the events, with the number of readers that read.
#[derive(Clone, Copy)]
enum Way {
    Core,
    Log,
    Desk(usize),
    Owned,
}

impl Way {
    /// The way of a word.
    fn read(word: &str) -> Option<Way> {
        match word {
            "core" => Some(Way::Core),
            "log" => Some(Way::Log),
            "desk 0" => Some(Way::Desk(0)),
            "desk 1" => Some(Way::Desk(1)),
            "desk 4" => Some(Way::Desk(4)),
            "desk 64" => Some(Way::Desk(64)),
            "owned" => Some(Way::Owned),
            _ => None,
        }
    }
}

/// Says whether the events were taken, and answers that.
fn tell_taken(rt: &impl Print, taken: Option<()>) -> io::Result<bool> {
    match taken {
        Some(()) => println!(rt; "{COUNT} events")?,
        None => println!(rt; "not taken")?,
    }
    Ok(taken.is_some())
}

/// Sends the events in one way, prints how many were taken, and of a desk also how many reads its readers had, and answers
/// whether all were taken.
fn send<R: Print + Threads + Wait + Sync>(rt: &R, alloc: Global, way: Way) -> io::Result<bool> {
    match way {
        Way::Core => tell_taken(rt, through_log::core(alloc)),
        Way::Log => tell_taken(rt, log(alloc)),
        Way::Owned => tell_taken(rt, through_owned::owned(rt, alloc)),
        Way::Desk(readers) => match through_desk::desk(rt, alloc, readers) {
            Some(reads) => {
                println!(rt; "{} events, {reads} reads", count_beside(readers))?;
                Ok(true)
            }
            None => tell_taken(rt, None),
        },
    }
}

/// Sends the events in the way that a word asks for; false where they weren't all taken, or the word is none of these.
pub fn measure<R: Print + Threads + Wait + Sync>(
    rt: &R,
    alloc: Global,
    word: &str,
) -> io::Result<bool> {
    match Way::read(word) {
        Some(way) => send(rt, alloc, way),
        None => {
            println!(rt; "usage: core, log, desk 0, desk 1, desk 4, desk 64 or owned")?;
            Ok(false)
        }
    }
}
