//! The damages of what was found.
ghost use Rattle.std.specs.Prelude.{◌≡◌, ◌++◌, ◌∷◌, [], IfOk, map};
ghost use Rattle.damaged_files.specs.Damages.{checksum_damages, commit_damages, counted_damages, damage_of, damages_of, found_damages, opening_damages, part_damages, seq_damages, size_damage, size_damages, slot_damage, slot_damages, unread_damages};

use crate::damage::{Damage, Lost, Refused, Span, Spot, slot_start};
use crate::examined::Examined;
use crate::place::{Place, place_of};
use sector_device::SECTOR_BYTES;
use std::alloc::{AllocError, Global};
use store_parts::{Check, Findings, Part, SlotCopy};
use store_salvage::{Doubt, Made};

/// The damages of what was found on a device on which an opening would be refused by that number.
pub(crate) fn damages(
    alloc: Global,
    refused: Option<u16>,
    examined: &Examined,
) -> Result<Vec<Damage>, AllocError>
    ensures { IfOk result (λ damages. damages.items ≡ damages_of refused examined.now) }
{
    let opening = opening_damages(alloc, refused)?;
    let found = with_found(opening, &examined.found, &examined.made)?;
    with_unread(found, &examined.unread)
}

// The damage that an opening is refused.
fn opening_damages(alloc: Global, refused: Option<u16>) -> Result<Vec<Damage>, AllocError>
    ensures { IfOk result (λ damages. damages.items ≡ opening_damages refused) }
{
    let mut damages = Vec::new(alloc);
    if let Some(number) = refused {
        damages.push(Damage::Unopened { number })?;
    }
    Ok(damages)
}

// The damages, and after them those of the commits and of the part that counts.
fn with_found(
    damages: Vec<Damage>,
    found: &Option<Findings>,
    made: &Option<Made>,
) -> Result<Vec<Damage>, AllocError>
    ensures { IfOk result (λ more. more.items ≡ damages.items ++ found_damages found.now made.now) }
{
    match (found, made) {
        (None, _) => Ok(damages),
        (Some(found), None) => with_commits(damages, found),
        (Some(found), Some(made)) => with_part(with_commits(damages, found)?, found, made),
    }
}

// The damages, and after them those of the commits.
fn with_commits(damages: Vec<Damage>, found: &Findings) -> Result<Vec<Damage>, AllocError>
    ensures { IfOk result (λ more. more.items ≡ damages.items ++ commit_damages found.now) }
{
    let sized = with_size(with_seq(damages, found.seq)?, found.sectors, found.size)?;
    with_slots(sized, &found.copies)
}

// The damages, and after them the one that a device of `sectors` sectors is cut or padded, if its store has another size.
fn with_size(damages: Vec<Damage>, sectors: u64, size: u64) -> Result<Vec<Damage>, AllocError>
    ensures { IfOk result (λ more. more.items ≡ damages.items ++ size_damages sectors size) }
{
    match size_damage(sectors, size) {
        None => Ok(damages),
        Some(damage) => with_one(damages, damage),
    }
}

// The damage that it is cut or padded.
fn size_damage(sectors: u64, size: u64) -> Option<Damage>
    ensures { result ≡ size_damage sectors size }
{
    if sectors < size {
        Some(Damage::Missing {
            span: Span {
                sector: sectors,
                sectors: size - sectors,
            },
        })
    } else if size < sectors {
        Some(Damage::Surplus {
            span: Span {
                sector: size,
                sectors: sectors - size,
            },
        })
    } else {
        None
    }
}

// The damages, and after them the one that no commit is valid, if none is.
fn with_seq(damages: Vec<Damage>, seq: Option<u64>) -> Result<Vec<Damage>, AllocError>
    ensures { IfOk result (λ more. more.items ≡ damages.items ++ seq_damages seq) }
{
    match seq {
        Some(_) => Ok(damages),
        None => with_one(damages, Damage::NoCommit),
    }
}

// The damages, and after them those of the slots from A to B'.
fn with_slots(damages: Vec<Damage>, copies: &[SlotCopy]) -> Result<Vec<Damage>, AllocError>
    ensures { IfOk result (λ more. more.items ≡ damages.items ++ slot_damages 0 copies.now) }
{
    let mut all = damages;
    for place in 0..copies.len() {
        all = with_slot(all, place as u64, copies[place])?;
    }
    Ok(all)
}

// The damages, and after them the one that the slot at a place holds no valid commit, or an old one, if so.
fn with_slot(damages: Vec<Damage>, place: u64, copy: SlotCopy) -> Result<Vec<Damage>, AllocError>
    ensures { IfOk result (λ more. more.items ≡ damages.items ++ slot_damage place copy.slot copy.old) }
{
    let sector = slot_start(place);
    match copy.slot {
        None => with_one(damages, Damage::Slot { place, sector }),
        Some(_) => {
            if copy.old {
                with_one(damages, Damage::OldSlot { place, sector })
            } else {
                Ok(damages)
            }
        }
    }
}

// The damages, and after them that one.
fn with_one(damages: Vec<Damage>, damage: Damage) -> Result<Vec<Damage>, AllocError>
    ensures { IfOk result (λ more. more.items ≡ damages.items ++ damage ∷ []) }
{
    let mut all = damages;
    all.push(damage)?;
    Ok(all)
}

// The damages, and after them those of the part that was made into documents.
fn with_part(damages: Vec<Damage>, found: &Findings, made: &Made) -> Result<Vec<Damage>, AllocError>
    ensures { IfOk result (λ more. more.items ≡ damages.items ++ part_damages found.now made.now) }
{
    match found.parts.get(made.part) {
        None => Ok(damages),
        Some(part) => {
            if part.counted {
                with_counted(damages, part, made)
            } else {
                Ok(damages)
            }
        }
    }
}

// The damages, and after them those of the part that a commit counts.
fn with_counted(damages: Vec<Damage>, part: &Part, made: &Made) -> Result<Vec<Damage>, AllocError>
    ensures { IfOk result (λ more. more.items ≡ damages.items ++ counted_damages part.now made.now) }
{
    with_doubts(
        with_checksum(damages, part, made.check)?,
        part,
        &made.doubts,
    )
}

// The damages, and after them the one that a part's bytes don't have its checksum, if they don't.
fn with_checksum(damages: Vec<Damage>, part: &Part, check: Check) -> Result<Vec<Damage>, AllocError>
    ensures { IfOk result (λ more. more.items ≡ damages.items ++ checksum_damages part.now check) }
{
    match check {
        Check::Held | Check::Unknown => Ok(damages),
        Check::Failed => with_one(
            damages,
            Damage::Checksum {
                half: part.half,
                span: Span {
                    sector: part.first,
                    sectors: part.len / SECTOR_BYTES,
                },
            },
        ),
    }
}

// The damages, and after them those of the part's bytes that are in no document.
fn with_doubts(
    damages: Vec<Damage>,
    part: &Part,
    doubts: &[Doubt],
) -> Result<Vec<Damage>, AllocError>
    ensures { IfOk result (λ more. more.items ≡ damages.items ++ map (damage_of part.now) doubts.now) }
{
    let mut all = damages;
    for doubt in doubts {
        all.push(damage_of(part, *doubt))?;
    }
    Ok(all)
}

// The damage of bytes of a part that are in no document.
fn damage_of(part: &Part, doubt: Doubt) -> Damage
    ensures { result ≡ damage_of part.now doubt }
{
    match doubt {
        Doubt::Lost { at, len } => {
            let Place { sector, byte } = place_of(part, at as u64);
            Damage::Lost {
                byte,
                rest: Lost { len, sector },
            }
        }
        Doubt::Refused {
            at,
            seq,
            number,
            ..
        } => {
            let Place { sector, byte } = place_of(part, at as u64);
            Damage::Refused {
                byte,
                rest: Refused {
                    number,
                    spot: Spot { sector, seq },
                },
            }
        }
    }
}

// The damages, and after them the sectors that aren't read.
fn with_unread(damages: Vec<Damage>, unread: &[u64]) -> Result<Vec<Damage>, AllocError>
    ensures { IfOk result (λ more. more.items ≡ damages.items ++ unread_damages unread.now) }
{
    let mut all = damages;
    for sector in unread {
        all.push(Damage::Unread { sector: *sector })?;
    }
    Ok(all)
}
