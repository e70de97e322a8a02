//! A desk: the control opens a transition, and two idle tasks pass their idle points, each on a thread of its own.
#![tactic(auto)]

ghost use Rattle.std.specs.Prelude.{◌≡◌};
ghost use Rattle.lp_board.specs.Blanks.{name_of};

use anyhow::Result;
use livepatch::Event::{Enable, Idle};
use livepatch::{Class, Consistency, Hybrid, PatchSet, PatchStack, Symbols, TaskId};
use lp_desk::{Blank, Desk, DeskName, Launched, OpenGate};
use std::alloc::Global;
use std::marker::Brand;
use std::sync::Wait;
use std::thread::{Threads, join};

fn blank(alloc: Global) -> Result<Blank<Hybrid>> {
    let mut symbols = Symbols::new(alloc)?;
    let a = symbols.add("a")?;
    let patch = PatchSet::build(alloc, &symbols, &[a])?;
    let patches = PatchStack::new(alloc, vec![in alloc; patch]?)?;
    let boots = [(TaskId(1), Class::Idle), (TaskId(2), Class::Idle)];
    Ok(Blank::new(alloc, Hybrid, patches, &boots, 1)?)
}

fn play<T: Print + Threads + Wait + Sync, M: Consistency + Send + Sync, N: DeskName + Send + Sync>(
    rt: &T,
    alloc: Global,
    blank: Blank<M>,
) -> Result<()>
    requires { name_of M.rules blank ≡ N.desk }
{
    let launched = Desk::<M, N, OpenGate, &T>::launch(rt, alloc, blank, 1, OpenGate)?;
    let Launched {
        desk,
        mut seats,
        control,
        mut readers,
    } = launched;
    let opened = desk
        .command(rt, alloc, control, Enable)
        .map_err(|turned| turned.cause)?;
    let (Some(two), Some(one)) = (seats.pop(), seats.pop()) else {
        return Ok(());
    };
    let (one, two) = join(
        rt,
        || desk
            .submit(rt, alloc, one, Idle(TaskId(1)))
            .map_err(|turned| turned.cause),
        || desk
            .submit(rt, alloc, two, Idle(TaskId(2)))
            .map_err(|turned| turned.cause),
    );
    let seats = vec![in alloc; one?.seat, two?.seat]?;
    for reader in &mut readers {
        for (task, shown) in reader.snapshot(alloc)? {
            println!(rt; "task {task}: {shown:?}")?;
        }
    }
    let closed = desk
        .close(rt, alloc, seats, opened.control)
        .map_err(|kept| kept.cause)?;
    println!(rt; "{} events", closed.journal.entries().len())?;
    Ok(())
}

fn main(rt: HostRuntime) -> Result<()> {
    let blank = blank(rt.alloc())?;
    play::<HostRuntime, Hybrid, Brand>(&rt, rt.alloc(), blank)
}
