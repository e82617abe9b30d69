//! The documents that frames make which are found among damaged bytes.
ghost use Rattle.std.specs.Prelude.{◌≡◌, ◌≤◌, ◌<◌, ◌⊎◌, ◌++◌, ◌∷◌, [], List, ℕ, Option, IfOk, false, true, length, max};
ghost use Rattle.doc_changes.specs.State.{Good};
ghost use Rattle.frame_search.specs.Places.{IsFrameFormat};
ghost use Rattle.record_text.specs.Change.{change_of};
ghost use Rattle.record_text.specs.Frame.{entry};
ghost use Rattle.store_salvage.specs.declared.taking.Doubt.TheVariants.{Refused};
ghost use Rattle.store_salvage.specs.Gathering.{AddsAll, Gathers, Goes, IsAnswered, IsTakenWith, Placed, doubts_of, last_on, last_with, lost_of, placed_of};

use crate::spare::Spare;
use doc_machine::{Command, Machine};
use frame_search::{Found, next_frame};
use log_frames::Kind;
use refusals::numbers::{DAMAGED, MEMORY};
use std::alloc::{AllocError, Global};
use store_parts::Part;

/// What bytes hold that is in no document.
#[derive(Clone, Copy, Debug, PartialEq, Eq)]
pub enum Doubt {
    /// The `len` bytes from `at` on are no frame.
    Lost {
        at: usize,
        len: usize,
    },
    /// The frame at `at` isn't taken: `number` says why the documents, as they are then, refuse it, `DAMAGED` that it is
    /// older than one before it, or newer than the last commit.
    Refused {
        at: usize,
        len: usize,
        seq: u64,
        number: u16,
    },
}

/// What was gathered.
#[derive(Drop)]
pub struct Gathered {
    /// The documents.
    pub machine: Machine,
    /// What is in none of them, in the order of the places.
    pub doubts: Vec<Doubt>,
    /// The highest seq of a change that was taken, or 0.
    pub last: u64,
    /// The highest seq of one of the bytes themselves, or 0.
    pub own: u64,
}

/// What is known of the bytes in which frames are looked for.
#[derive(Clone, Copy, Debug, PartialEq, Eq)]
pub struct Source {
    /// The format of the frames.
    pub version: u32,
    /// A commit counts these bytes.
    pub counted: bool,
    /// The highest seq that a frame may have.
    pub limit: u64,
    /// The place from which on the bytes have a checksum of their own; those before failed theirs. 0: none failed.
    pub sure: usize,
}

/// Has the machine take the frames of that format in the bytes, one after another; those of marks are passed over. If no
/// commit counts these bytes, old frames may follow the last one: then only creations at the beginning, with
/// nothing but marks between them, and frames newer than all before them are taken. Of documents that a sure frame makes
/// anew no frame before the sure ones is taken. If numbers are missing before that of a change, and at the end, the
/// spare frames of such numbers are taken. `Err`: memory was refused.
pub fn gather(
    alloc: Global,
    bytes: &[u8],
    source: Source,
    parts: &[Part],
    spare: &[Spare],
    machine: Machine,
) -> Result<Gathered, AllocError>
    requires { IsFrameFormat source.version }
    ensures gathers { IfOk result (λ g. Gathers source bytes.now parts.now machine g.doubts.items g.last g.machine) }
    ensures good { IfOk result (λ g. Good g.machine) }
{
    machine.know();
    let anew = made_anew(alloc, bytes, source)?;
    let mut gathered = Gathered {
        machine,
        doubts: Vec::new(alloc),
        last: 0,
        own: 0,
    };
    let mut from = 0;
    let mut begins = true;
    while from < bytes.len() {
        let Some(found) = next_frame(alloc, bytes, source.version, from)? else {
            let rest = with_lost(gathered, from, bytes.len())?;
            return fill(alloc, rest, parts, spare, u64::MAX);
        };
        let lost = with_lost(gathered, from, found.at)?;
        let filled = fill_before(alloc, lost, parts, spare, &found)?;
        begins = begins && from == found.at && is_creation(&found.command);
        let newer = begins || found.seq > filled.last;
        let wanted = (source.counted || newer)
            && (source.sure <= found.at || !is_of(&anew, &found.command));
        let next = found.at + found.len;
        gathered = take(filled, source, found, wanted)?;
        from = next;
    }
    fill(alloc, gathered, parts, spare, u64::MAX)
}

// What was gathered, with the doubt that the bytes from `from` up to `end` are lost, if there are any.
fn with_lost(gathered: Gathered, from: usize, end: usize) -> Result<Gathered, AllocError>
    requires good { Good gathered.machine }
    ensures same { IfOk result (λ g. (g.machine ≡ gathered.machine) × (g.last ≡ gathered.last)) }
    ensures lost { IfOk result (λ g. g.doubts.items ≡ gathered.doubts.items ++ lost_of from end) }
    ensures good { IfOk result (λ g. Good g.machine) }
{
    let mut gathered = gathered;
    if from < end {
        gathered.doubts.push(Doubt::Lost {
            at: from,
            len: end - from,
        })?;
    }
    Ok(gathered)
}

fn is_creation(command: &Command) -> bool {
    matches!(command, Command::Create { .. })
}

// The name of the document that a command makes or changes.
fn name_of(command: &Command) -> &str {
    match command {
        Command::Create { name, .. } => name.as_str(),
        Command::Patch { name, .. } => name.as_str(),
        Command::Schema { name, .. } => name.as_str(),
        Command::Delete { name } => name.as_str(),
    }
}

// The names of the documents that the sure frames make, if those before failed their checksum.
fn made_anew(alloc: Global, bytes: &[u8], source: Source) -> Result<Vec<String>, AllocError>
    requires { IsFrameFormat source.version }
{
    let mut names = Vec::new(alloc);
    let mut from = source.sure;
    while 0 < from && from < bytes.len() {
        let Some(found) = next_frame(alloc, bytes, source.version, from)? else {
            return Ok(names);
        };
        from = found.at + found.len;
        if !found.kind.is_noted() && is_creation(&found.command) {
            names.push(String::from_str(alloc, name_of(&found.command))?)?;
        }
    }
    Ok(names)
}

// Whether a command makes or changes one of these documents.
fn is_of(names: &[String], command: &Command) -> bool {
    names.iter().any(|name| name.as_str() == name_of(command))
}

// What was gathered, and before that frame, if it is a change's and numbers are missing, the spare frames of these.
fn fill_before(
    alloc: Global,
    gathered: Gathered,
    parts: &[Part],
    spare: &[Spare],
    found: &Found,
) -> Result<Gathered, AllocError>
    requires good { Good gathered.machine }
    ensures adds { IfOk result (λ g. (added : List Placed) × AddsAll parts.now gathered.last gathered.machine added g.last g.machine) }
    ensures doubts { IfOk result (λ g. g.doubts.items ≡ gathered.doubts.items) }
    ensures good { IfOk result (λ g. Good g.machine) }
{
    let is_change = matches!(found.kind, Kind::Last | Kind::More);
    if is_change && gathered.last < found.seq.saturating_sub(1) {
        fill(alloc, gathered, parts, spare, found.seq)
    } else {
        Ok(gathered)
    }
}

// What was gathered, and the spare frames that are newer, up to that seq.
fn fill(
    alloc: Global,
    gathered: Gathered,
    parts: &[Part],
    spare: &[Spare],
    below: u64,
) -> Result<Gathered, AllocError>
    requires good { Good gathered.machine }
    ensures adds { IfOk result (λ g. (added : List Placed) × AddsAll parts.now gathered.last gathered.machine added g.last g.machine) }
    ensures doubts { IfOk result (λ g. g.doubts.items ≡ gathered.doubts.items) }
    ensures good { IfOk result (λ g. Good g.machine) }
{
    let mut gathered = gathered;
    for frame in spare {
        gathered = with_spare(alloc, gathered, parts, *frame, below)?;
    }
    Ok(gathered)
}

// What was gathered, and a spare frame, if it is newer, up to that seq, and the machine takes it.
fn with_spare(
    alloc: Global,
    gathered: Gathered,
    parts: &[Part],
    spare: Spare,
    below: u64,
) -> Result<Gathered, AllocError>
    requires good { Good gathered.machine }
    ensures adds { IfOk result (λ g. (added : List Placed) × AddsAll parts.now gathered.last gathered.machine added g.last g.machine) }
    ensures doubts { IfOk result (λ g. g.doubts.items ≡ gathered.doubts.items) }
    ensures good { IfOk result (λ g. Good g.machine) }
{
    if spare.seq <= gathered.last || below <= spare.seq {
        return Ok(gathered);
    }
    let Some(part) = parts.get(spare.part) else {
        return Ok(gathered);
    };
    match next_frame(alloc, &part.tail, 3, spare.at)? {
        None => Ok(gathered),
        Some(found) => {
            if found.kind.is_noted() {
                Ok(gathered)
            } else {
                with_change(gathered, found)
            }
        }
    }
}

// What was gathered, and the change of a spare frame, if the machine takes it.
fn with_change(gathered: Gathered, found: Found) -> Result<Gathered, AllocError>
    requires good { Good gathered.machine }
    ensures added { IfOk result (λ g. ((g.machine ≡ gathered.machine) × (g.last ≡ gathered.last)) ⊎ (IsTakenWith gathered.machine (placed_of found).entry g.machine × (g.last ≡ max gathered.last (placed_of found).entry.seq))) }
    ensures doubts { IfOk result (λ g. g.doubts.items ≡ gathered.doubts.items) }
    ensures good { IfOk result (λ g. Good g.machine) }
{
    let Gathered {
        mut machine,
        doubts,
        last,
        own,
    } = gathered;
    let Found { seq, command, .. } = found;
    match try_taking(&mut machine, command, seq) {
        None => Ok(Gathered {
            machine,
            doubts,
            last: last.max(seq),
            own,
        }),
        Some(MEMORY) => Err(AllocError),
        Some(_) => Ok(Gathered {
            machine,
            doubts,
            last,
            own,
        }),
    }
}

// What was gathered, with a frame more of the bytes if the machine takes it, or with a doubt. That of a mark changes nothing:
// no document has it.
fn take(
    gathered: Gathered,
    source: Source,
    found: Found,
    wanted: bool,
) -> Result<Gathered, AllocError>
    requires good { Good gathered.machine }
    ensures goes { IfOk result (λ g. (refusal : Option ℕ) × Goes source gathered.machine (placed_of found) refusal g.machine
        × (g.doubts.items ≡ gathered.doubts.items ++ doubts_of (placed_of found) refusal) × (g.last ≡ last_with gathered.last (placed_of found) refusal)) }
    ensures good { IfOk result (λ g. Good g.machine) }
{
    if found.kind.is_noted() {
        return Ok(gathered);
    }
    if is_allowed(source, found.seq, wanted) {
        take_change(gathered, found)
    } else {
        refuse(gathered, &found, DAMAGED)
    }
}

// Whether the machine may be asked to take the frame of a change: it is wanted, or a commit counts the bytes, and it is no
// newer than that.
fn is_allowed(source: Source, seq: u64, wanted: bool) -> bool
    ensures { result ≡ false → source.counted ≡ true → source.sure ≡ 0 → source.limit < seq }
{
    if source.limit < seq {
        return false;
    }
    if source.counted && source.sure == 0 {
        return true;
    }
    wanted
}

// What was gathered, with the doubt that a frame is refused.
fn refuse(gathered: Gathered, found: &Found, number: u16) -> Result<Gathered, AllocError>
    requires good { Good gathered.machine }
    ensures same { IfOk result (λ g. (g.machine ≡ gathered.machine) × (g.last ≡ gathered.last)) }
    ensures doubts { IfOk result (λ g. g.doubts.items ≡ gathered.doubts.items ++ Refused found.now.at found.now.len found.now.seq number ∷ []) }
    ensures good { IfOk result (λ g. Good g.machine) }
{
    let mut gathered = gathered;
    gathered.doubts.push(Doubt::Refused {
        at: found.at,
        len: found.len,
        seq: found.seq,
        number,
    })?;
    Ok(gathered)
}

// What was gathered, with the change of a frame if the machine takes it, or with a doubt.
fn take_change(gathered: Gathered, found: Found) -> Result<Gathered, AllocError>
    requires good { Good gathered.machine }
    ensures goes { IfOk result (λ g. (refusal : Option ℕ) × IsAnswered gathered.machine (placed_of found).entry refusal g.machine
        × (g.doubts.items ≡ gathered.doubts.items ++ doubts_of (placed_of found) refusal) × (g.last ≡ last_on false gathered.last found.seq refusal)) }
    ensures good { IfOk result (λ g. Good g.machine) }
{
    let Gathered {
        mut machine,
        mut doubts,
        last,
        own,
    } = gathered;
    let Found {
        at,
        len,
        seq,
        command,
        ..
    } = found;
    match try_taking(&mut machine, command, seq) {
        None => Ok(Gathered {
            machine,
            doubts,
            last: last.max(seq),
            own: own.max(seq),
        }),
        Some(MEMORY) => Err(AllocError),
        Some(number) => {
            doubts.push(Doubt::Refused {
                at,
                len,
                seq,
                number,
            })?;
            Ok(Gathered {
                machine,
                doubts,
                last,
                own,
            })
        }
    }
}

// Why the machine doesn't take the change, or it does.
fn try_taking(machine: &mut Machine, command: Command, seq: u64) -> Option<u16>
    ensures taken { IsAnswered machine.old (entry seq (change_of command)) result machine.new }
    ensures good { Good machine.new }
{
    machine.know();
    if seq > machine.seq() {
        return Some(DAMAGED);
    }
    match machine.take(command, seq) {
        Ok(()) => None,
        Err(refusal) => Some(refusal.number),
    }
}
