//! An owned book's start, which has no name yet.
ghost use Rattle.std.specs.Prelude.{◌≡◌, ◌↔◌, Err, IfOk, IfSome, None, OnErr};
ghost use Rattle.lp_transition.specs.Boot.{boot_refusal};
ghost use Rattle.lp_transition.specs.declared.engine.boot.BootFault.TheVariants as boot_fault;
ghost use Rattle.lp_board.specs.Blanks.{IsCrew};
ghost use Rattle.lp_board.specs.declared.launch.LaunchFault.TheVariants.{BadCrew, Boot};

use crate::seat::ByOwner;
use lp_board::{Blank, LaunchFault};
use lp_log::Entry;
use lp_model::Consistency;
use lp_patch::PatchStack;
use lp_stack::{Class, TaskId};
use std::alloc::Global;
use std::marker::Model;

/// A blank, and the keeper of the parts of its journal.
///
/// Contracts see how it starts, and which list its parts are of.
pub struct OwnedBlank<M: Consistency> {
    pub(crate) blank: Blank<M>,
    pub(crate) parts: lp_parts::Blank<Entry, ByOwner>,
}

/// By hand, so that the proof of who owns one lets go of it in one step, not field by field.
impl<M: Consistency> Drop for OwnedBlank<M> {
    fn drop(self) {
        let OwnedBlank { blank: _, parts: _ } = self;
    }
}

impl<M: Consistency> Model for OwnedBlank<M> {
    ghost use Rattle.std.specs.Prelude.{◌≡◌, None};
    ghost use Rattle.lp_transition.specs.Boot.{boot_refusal};
    ghost use Rattle.lp_owned.specs.Owned.{OwnedStart};

    ghost Value = { OwnedStart };

    ghost view = { λ b. record { start = b.blank; table = b.parts } };

    ghost invariant = { λ b. boot_refusal b.blank.boots ≡ None };
}

impl<M: Consistency> OwnedBlank<M> {
    /// As `Blank::new`: an engine with these tasks, and what its board needs for so many readers.
    ///
    /// Refused for a number of readers outside 1 to 64, else as the engine is: T1 or T2 for the first task at fault,
    /// else T3 where an allocation failed.
    pub fn new(
        alloc: Global,
        model: M,
        patches: PatchStack,
        boots: &[(TaskId, Class)],
        readers: usize,
    ) -> Result<OwnedBlank<M>, LaunchFault>
        ensures crew { (result ≡ Err BadCrew) ↔ (IsCrew readers → ⊥) }
        ensures refused { IsCrew readers → IfSome (boot_refusal boots.now) (λ fault. result ≡ Err (Boot fault)) }
        ensures memory { IsCrew readers → boot_refusal boots.now ≡ None → OnErr result (result ≡ Err (Boot boot_fault.NoMemory)) }
        ensures start { IfOk result (λ blank. (blank.start.patches ≡ patches) × (blank.start.boots ≡ boots.now)) }
        ensures readers { IfOk result (λ blank. blank.start.readers ≡ readers) }
    {
        match Blank::new(alloc, model, patches, boots, readers) {
            Ok(blank) => OwnedBlank::over(alloc, blank),
            Err(fault) => Err(fault),
        }
    }

    /// The blank, and the keeper of the parts.
    pub(crate) fn into_parts(self) -> (Blank<M>, lp_parts::Blank<Entry, ByOwner>)
        ensures start { result.0 ≡ self.start }
        ensures table { result.1 ≡ self.table }
        ensures boots { boot_refusal self.start.boots ≡ None }
    {
        let OwnedBlank { blank, parts } = self;
        (blank, parts)
    }

    /// The same of a blank that was made.
    fn over(alloc: Global, blank: Blank<M>) -> Result<OwnedBlank<M>, LaunchFault>
        requires { boot_refusal blank.boots ≡ None }
        ensures memory { OnErr result (result ≡ Err (Boot boot_fault.NoMemory)) }
        ensures start { IfOk result (λ owned. owned.start ≡ blank) }
    {
        match lp_parts::Blank::new(alloc) {
            Ok(parts) => Ok(OwnedBlank { blank, parts }),
            Err(error) => {
                drop(blank);
                Err(LaunchFault::from(error))
            }
        }
    }
}
