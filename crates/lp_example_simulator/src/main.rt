//! A simulator: a task is in `a` when a patch of `a` is enabled, and while it waits there is a certificate why.
#![tactic(auto)]

use anyhow::Result;
use livepatch::Event::{Call, Enable, Enter, Exit, Ret, Walk};
use livepatch::{Class, GroupId, Hybrid, PatchSet, PatchStack, Simulator, SymId, Symbols, TaskId};
use std::alloc::Global;

fn boot(alloc: Global) -> Result<Simulator<Hybrid>> {
    let mut symbols = Symbols::new(alloc)?;
    let a = symbols.add("a")?;
    let patch = PatchSet::build(alloc, &symbols, &[a])?;
    let patches = PatchStack::new(alloc, vec![in alloc; patch]?)?;
    Ok(Simulator::new(alloc, Hybrid, patches, &[(TaskId(1), Class::Normal)])?)
}

fn print_run<R: Print + AllocGlobal>(rt: &R, simulator: &mut Simulator<Hybrid>) -> Result<()> {
    let (alloc, one, a) = (rt.alloc(), TaskId(1), SymId(0));
    for event in [Enter(one), Call(one, a), Enable, Walk, Ret(one), Exit(one)] {
        println!(rt; "{event}: {}", simulator.step(alloc, event)?)?;
        if let Some(cert) = simulator.certificate(alloc, GroupId(1))? {
            simulator.check(alloc, &cert)?;
            println!(rt; "{cert}")?;
        }
    }
    Ok(())
}

fn main(rt: HostRuntime) -> Result<()> {
    print_run(&rt, &mut boot(rt.alloc())?)
}
