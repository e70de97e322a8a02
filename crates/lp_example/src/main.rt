//! An engine by hand: a task that is in `a` when a patch of `a` is enabled, each event with the reply to it.
#![tactic(auto)]

use anyhow::Result;
use livepatch::Event::{Call, Enable, Enter, Exit, Ret};
use livepatch::{Class, Core, Hybrid, PatchSet, PatchStack, SymId, Symbols, TaskId};
use std::alloc::Global;

fn boot(alloc: Global) -> Result<Core<Hybrid>> {
    let mut symbols = Symbols::new(alloc)?;
    let a = symbols.add("a")?;
    let patch = PatchSet::build(alloc, &symbols, &[a])?;
    let patches = PatchStack::new(alloc, vec![in alloc; patch]?)?;
    Ok(Core::boot(alloc, Hybrid, patches, &[(TaskId(1), Class::Normal)])?)
}

fn print_replies<R: Print + AllocGlobal>(rt: &R, core: &mut Core<Hybrid>) -> Result<()> {
    let (one, a) = (TaskId(1), SymId(0));
    for event in [Enter(one), Call(one, a), Enable, Ret(one), Exit(one)] {
        println!(rt; "{event}: {}", core.step(rt.alloc(), event)?)?;
    }
    Ok(())
}

fn main(rt: HostRuntime) -> Result<()> {
    print_replies(&rt, &mut boot(rt.alloc())?)
}
