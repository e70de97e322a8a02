//! An engine and a board that have no name yet.
ghost use Rattle.std.specs.Prelude.{◌≡◌, ◌⊎◌, ◌↔◌, [], Err, None, Ok, All, IfOk, IfErr, IfSome, OnErr, OnOk, drop, length};
ghost use Rattle.lp_transition.specs.Boot.{boot_refusal};
ghost use Rattle.lp_machine.specs.Steps.{StandsIn};
ghost use Rattle.lp_machine.specs.Table.{bounds_of, state_in};
ghost use Rattle.lp_transition.specs.declared.engine.boot.BootFault.TheVariants as boot_fault;
ghost use Rattle.lp_board.specs.Blanks.{IsCrew, name_of};
ghost use Rattle.lp_board.specs.inside.Starts.{levels_of};
ghost use Rattle.lp_board.specs.inside.History.{head_of};
ghost use Rattle.lp_board.specs.Names.{run_of};
ghost use Rattle.lp_board.specs.Pages.{IsPage};
ghost use Rattle.lp_board.specs.inside.Publishers.{page_of};
ghost use Rattle.lp_board.specs.declared.launch.LaunchFault.TheVariants.{BadCrew, Boot, NoBoard};

use crate::history::{Head, Law, Prefix};
use crate::launch::{LaunchFault, MOST_CREW};
use crate::levels::Levels;
use crate::name::DeskName;
use crate::publisher::{Publisher, RawWriter, publish};
use crate::reader::BoardReader;
use crate::sheet::{Change, Heading, Sheet, Update};
use core::mem::replace_with;
use logbook::{Seen, Start, Word};
use lp_model::Consistency;
use lp_patch::PatchStack;
use lp_stack::{Class, Level, TaskId};
use lp_transition::{BootFault, Core, Event};
use std::alloc::{AllocError, Global};
use std::marker::Model;
use std::sync::Wait;

/// An engine that has taken no event, with all that its board needs but a name.
///
/// Contracts see how it starts, where its events will be kept, and how many readers its board will have.
pub struct Blank<M: Consistency> {
    core: Core<M>,
    patches: PatchStack,
    boots: Vec<(TaskId, Class)>,
    heading: Heading,
    first: Levels,
    second: Levels,
    head: Head,
    seen: Seen<Event, u64, Law>,
    readers: usize,
}

/// By hand, so that the proof of who owns one lets go of it in one step, not field by field.
impl<M: Consistency> Drop for Blank<M> {
    fn drop(self) {
        let Blank {
            core: _,
            patches: _,
            boots: _,
            heading: _,
            first: _,
            second: _,
            head: _,
            seen: _,
            readers: _,
        } = self;
    }
}

impl<M: Consistency> Model for Blank<M> {
    ghost use Rattle.lp_board.specs.Blanks.{BlankStart, name_of};
    ghost use Rattle.lp_board.specs.inside.Starts.{IsBlank};
    ghost use Rattle.std.specs.Prelude.{[]};

    ghost Value = { BlankStart };

    ghost view = { λ b. record { patches = b.patches; boots = b.boots.items; book = b.seen.book; readers = b.readers } };

    ghost invariant = { λ b. IsBlank (name_of M.rules (record { patches = b.patches; boots = b.boots.items; book = b.seen.book; readers = b.readers })) b.core b.patches (record { levels = b.first; heading = b.heading; events = [] }) (record { levels = b.second; heading = b.heading; events = [] }) b.seen.log b.head b.readers };
}

/// What a blank keeps beside its engine.
#[derive(Drop)]
struct Kept {
    patches: PatchStack,
    boots: Vec<(TaskId, Class)>,
    first: Levels,
    second: Levels,
}

/// What a blank comes apart into, once it has a name. The publisher isn't `Drop`: end it by `Publisher::shut`.
pub struct Parts<M: Consistency, N: DeskName> {
    /// The engine.
    pub core: Core<M>,
    /// The patches with which it starts.
    pub patches: PatchStack,
    /// The tasks with which it starts.
    pub boots: Vec<(TaskId, Class)>,
    /// What publishes on its board.
    pub board: Publisher<N>,
    /// The readers of its board.
    pub readers: Vec<BoardReader<N>>,
}

impl<M: Consistency> Blank<M> {
    /// An engine with these tasks, and what its board needs for so many readers.
    ///
    /// Refused for a number of readers outside 1 to 64, else as the engine is: T1 or T2 for the first task at fault,
    /// else T3 where an allocation failed.
    pub fn new(
        alloc: Global,
        model: M,
        patches: PatchStack,
        boots: &[(TaskId, Class)],
        readers: usize,
    ) -> Result<Blank<M>, LaunchFault>
        ensures crew { (result ≡ Err BadCrew) ↔ (IsCrew readers → ⊥) }
        ensures refused { IsCrew readers → IfSome (boot_refusal boots.now) (λ fault. result ≡ Err (Boot fault)) }
        ensures memory { IsCrew readers → boot_refusal boots.now ≡ None → OnErr result (result ≡ Err (Boot boot_fault.NoMemory)) }
        ensures start { IfOk result (λ blank. (blank.patches ≡ patches) × (blank.boots ≡ boots.now)) }
        ensures readers { IfOk result (λ blank. blank.readers ≡ readers) }
    {
        if readers == 0 || readers > MOST_CREW {
            return Err(LaunchFault::BadCrew);
        }
        let patched = patches.copy(alloc);
        match Core::boot(alloc, model, patches, boots) {
            Ok(core) => match Blank::after(alloc, core, patched, boots, readers) {
                Ok(blank) => Ok(blank),
                Err(error) => Err(LaunchFault::from(error)),
            },
            Err(fault) => {
                drop(patched);
                Err(LaunchFault::Boot(fault))
            }
        }
    }

    /// A blank of an engine at its start, with a copy of the patches, if one could be made.
    ///
    /// Apart from `new`, and with a `drop` of its own: the proof goes over each part of an engine at each early return that
    /// gives one up.
    fn after(
        alloc: Global,
        core: Core<M>,
        patched: Result<PatchStack, AllocError>,
        boots: &[(TaskId, Class)],
        readers: usize,
    ) -> Result<Blank<M>, AllocError>
        requires stands { StandsIn M.rules (record { bounds = bounds_of core.patches; patches = core.patches; boots = boots.now; events = [] }) (state_in core) }
        requires opening { (core.from ≡ 0) × (core.target ≡ 0) }
        requires patches { IfOk patched (λ patches. patches ≡ core.patches) }
        requires crew { IsCrew readers }
        ensures { IfOk result (λ blank. (blank.patches ≡ core.patches) × (blank.boots ≡ boots.now) × (blank.readers ≡ readers)) }
    {
        match keep(alloc, &core, patched, boots) {
            Ok(kept) => Ok(Blank::of(core, kept, readers)),
            Err(error) => {
                drop(core);
                Err(error)
            }
        }
    }

    /// A blank of an engine at its start.
    fn of(core: Core<M>, kept: Kept, readers: usize) -> Blank<M>
        requires stands { StandsIn M.rules (record { bounds = bounds_of core.patches; patches = core.patches; boots = kept.boots.items; events = [] }) (state_in core) }
        requires opening { (core.from ≡ 0) × (core.target ≡ 0) }
        requires patches { kept.patches ≡ core.patches }
        requires levels { (kept.first ≡ levels_of core) × (kept.second ≡ levels_of core) }
        requires crew { IsCrew readers }
        ensures { (result.patches ≡ kept.patches) × (result.boots ≡ kept.boots.items) × (result.readers ≡ readers) }
    {
        let Kept {
            patches,
            boots,
            first,
            second,
        } = kept;
        let (seen, mut pen, _unused) = Seen::open(Start::alone(), 0, 0);
        Blank {
            patches,
            boots,
            heading: Heading {
                in_transition: core.in_transition(),
                lower: Level(0),
            },
            first,
            second,
            head: Word::tracked(0, &mut pen),
            seen,
            readers,
            core,
        }
    }

    /// The engine, its start, what publishes on its board, and the board's readers, under the desk's name.
    ///
    /// A refusal gives all up: T3 where an allocation failed, T5 where a reader couldn't be had.
    pub fn open<N: DeskName, R: Wait>(
        self,
        rt: &R,
        alloc: Global,
    ) -> Result<Parts<M, N>, LaunchFault>
        requires { name_of M.rules self ≡ N.desk }
        ensures stands { IfOk result (λ parts. StandsIn M.rules (run_of N.desk []) (state_in parts.core)) }
        ensures start { IfOk result (λ parts. (parts.patches ≡ self.patches) × (parts.boots.items ≡ self.boots)) }
        ensures published { IfOk result (λ parts. parts.board ≡ []) }
        ensures readers { IfOk result (λ parts. All (λ b. b ≡ record { seen = []; known = [] }) parts.readers.items) }
        ensures count { IfOk result (λ parts. length parts.readers.items ≡ self.readers) }
        ensures refused { IfErr result (λ fault. (fault ≡ Boot boot_fault.NoMemory) ⊎ (fault ≡ NoBoard)) }
    {
        let Self {
            core,
            patches,
            boots,
            heading,
            first,
            second,
            head,
            seen,
            readers: count,
        } = self;
        let prefix: Prefix<N> = Prefix::new(seen);
        let first = Sheet {
            levels: first,
            heading,
            prefix: prefix.again(),
        };
        let second = Sheet {
            levels: second,
            heading,
            prefix: prefix.again(),
        };
        match opened(rt, alloc, head, prefix, first, second, count) {
            Ok((board, readers)) => Ok(Parts {
                core,
                patches,
                boots,
                board,
                readers,
            }),
            Err(fault) => {
                drop(core);
                drop(patches);
                drop(boots);
                Err(fault)
            }
        }
    }
}

/// What a blank keeps beside an engine; AllocError where an allocation failed.
fn keep<M: Consistency>(
    alloc: Global,
    core: &Core<M>,
    patched: Result<PatchStack, AllocError>,
    boots: &[(TaskId, Class)],
) -> Result<Kept, AllocError>
    ensures start { IfOk result (λ kept. (patched ≡ Ok kept.patches) × (kept.boots.items ≡ boots.now)) }
    ensures levels { IfOk result (λ kept. (kept.first ≡ levels_of core.now) × (kept.second ≡ levels_of core.now)) }
{
    Ok(Kept {
        patches: patched?,
        boots: Vec::from_slice(alloc, boots)?,
        first: Levels::of(alloc, core)?,
        second: Levels::of(alloc, core)?,
    })
}

/// What publishes on a board whose two sheets show the start, and the board's readers.
fn opened<N: DeskName, R: Wait>(
    rt: &R,
    alloc: Global,
    head: Head,
    prefix: Prefix<N>,
    first: Sheet<N>,
    second: Sheet<N>,
    count: usize,
) -> Result<(Publisher<N>, Vec<BoardReader<N>>), LaunchFault>
    requires head { head ≡ head_of N.desk.book }
    requires empty { (prefix ≡ []) × (first.prefix ≡ []) }
    requires page { IsPage N.desk (page_of first) }
    requires alike { page_of first ≡ page_of second }
    requires crew { IsCrew count }
    ensures published { IfOk result (λ board. board.0 ≡ []) }
    ensures readers { IfOk result (λ board. All (λ b. b ≡ record { seen = []; known = [] }) board.1.items) }
    ensures count { IfOk result (λ board. length board.1.items ≡ count) }
    ensures refused { IfErr result (λ fault. (fault ≡ Boot boot_fault.NoMemory) ⊎ (fault ≡ NoBoard)) }
{
    let heading = first.heading;
    let mut writer = RawWriter::<N>::new(alloc, first, second, count)?;
    let mut readers = Vec::new(alloc);
    let crewed = crew(
        rt,
        alloc,
        &mut writer,
        &prefix,
        heading,
        &mut readers,
        count,
    );
    let board = Publisher::new(head, prefix, writer);
    match crewed {
        Ok(()) => Ok((board, readers)),
        Err(fault) => {
            drop(readers);
            board.shut(rt);
            Err(fault)
        }
    }
}

/// Makes room for one event in both copies, and so many readers.
fn crew<N: DeskName, R: Wait>(
    rt: &R,
    alloc: Global,
    writer: &mut RawWriter<N>,
    prefix: &Prefix<N>,
    heading: Heading,
    all: &mut Vec<BoardReader<N>>,
    readers: usize,
) -> Result<(), LaunchFault>
    requires empty { (prefix.now ≡ []) × (all.old.items ≡ []) }
    requires page { IsPage N.desk (page_of writer.old.desk.shown.value) }
    requires same { (page_of writer.old.desk.shown.value).events ≡ prefix.now }
    requires heading { (page_of writer.old.desk.shown.value).heading ≡ heading }
    requires pending { drop writer.old.behind writer.old.log.items ≡ [] }
    ensures page { page_of writer.new.desk.shown.value ≡ page_of writer.old.desk.shown.value }
    ensures pending { drop writer.new.behind writer.new.log.items ≡ [] }
    ensures readers { All (λ b. b ≡ record { seen = []; known = [] }) all.new.items }
    ensures count { OnOk result (length all.new.items ≡ readers) }
    ensures refused { IfErr result (λ fault. (fault ≡ Boot boot_fault.NoMemory) ⊎ (fault ≡ NoBoard)) }
{
    make_room(rt, alloc, writer, prefix, heading)?;
    make_room(rt, alloc, writer, prefix, heading)?;
    seat_all(writer, prefix, all, readers)
}

/// Publishes a change that changes nothing, so that there is room for one.
fn make_room<N: DeskName, R: Wait>(
    rt: &R,
    alloc: Global,
    writer: &mut RawWriter<N>,
    prefix: &Prefix<N>,
    heading: Heading,
) -> Result<(), AllocError>
    requires page { IsPage N.desk (page_of writer.old.desk.shown.value) }
    requires same { (page_of writer.old.desk.shown.value).events ≡ prefix.now }
    requires heading { (page_of writer.old.desk.shown.value).heading ≡ heading }
    requires pending { drop writer.old.behind writer.old.log.items ≡ [] }
    ensures page { page_of writer.new.desk.shown.value ≡ page_of writer.old.desk.shown.value }
    ensures pending { drop writer.new.behind writer.new.log.items ≡ [] }
{
    let nothing = Change {
        update: Update {
            levels: Vec::new(alloc),
            heading,
        },
        prefix: prefix.again(),
    };
    if writer.append(nothing).is_err() {
        return Err(AllocError);
    }
    replace_with(writer, rt, publish);
    Ok(())
}

/// Makes so many readers.
fn seat_all<N: DeskName>(
    writer: &RawWriter<N>,
    prefix: &Prefix<N>,
    all: &mut Vec<BoardReader<N>>,
    readers: usize,
) -> Result<(), LaunchFault>
    requires { (prefix.now ≡ []) × (all.old.items ≡ []) }
    ensures readers { All (λ b. b ≡ record { seen = []; known = [] }) all.new.items }
    ensures count { OnOk result (length all.new.items ≡ readers) }
    ensures refused { IfErr result (λ fault. (fault ≡ Boot boot_fault.NoMemory) ⊎ (fault ≡ NoBoard)) }
{
    for _made in 0..readers {
        let Ok(raw) = writer.factory().reader() else {
            return Err(LaunchFault::NoBoard);
        };
        if all.push(BoardReader::new(raw, prefix)).is_err() {
            return Err(LaunchFault::Boot(BootFault::NoMemory));
        }
    }
    Ok(())
}
