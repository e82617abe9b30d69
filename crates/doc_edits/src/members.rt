//! Changes of one member of an object.

ghost use Rattle.std.specs.Prelude.{◌≡◌, ◌+◌, None, Some, IfErr, IfOk, MatchResult, OnErr, length, option_map, string_bytes, if◌then◌else◌};
ghost use Rattle.doc_edits.specs.Edit as edit;
ghost use Rattle.doc_edits.specs.SizeChange.{Grows, IsBytes};
ghost use Rattle.doc_edits.specs.Size.{size};
ghost use Rattle.doc_edits.specs.Spare.{member_back};
ghost use Rattle.doc_edits.specs.OperationFault.{IsMissing};
ghost use Rattle.doc_edits.specs.declared.change.Change.TheVariants as change;
ghost use Rattle.doc_tree.specs.Doc.{object, get_member};
ghost use Rattle.doc_tree.specs.TreeView.{view, members_view};
ghost use Rattle.refusals.specs.declared.numbers.TheConstants.{PATCH_MISSING};
ghost use Rattle.json.specs.Print.{quoted};

use crate::change::Made;
use crate::fault::{MISSING, NO_MEMORY, Unmade};
use crate::limits::DOCUMENT_BYTES;
use crate::spare::Spare;
use doc_tree::{Tree, quoted_len_within};
use name_map::{Name, NameMap};
use std::alloc::Global;
use std::mem;

/// Adds a new member, or replaces the value of one that is there (RFC 6902, section 4.1).
pub fn add(
    alloc: Global,
    members: &mut NameMap<Tree>,
    name: &str,
    value: Tree,
) -> Result<Made, Unmade>
    ensures made { let made = edit.add_member (view value) name.now (members_view members.old.entries) in
        MatchResult result (λ _. made ≡ Some (members_view members.new.entries)) (λ e. IsMissing made e.fault) }
    ensures taken { IfOk result (λ m. option_map view m.old
        ≡ get_member name.now (members_view members.old.entries)) }
    ensures sized { IfOk result (λ m. Grows (change.Add value) m
        (size (object (members_view members.old.entries)))
        (size (object (members_view members.new.entries)))) }
    ensures unchanged { OnErr result (members_view members.new.entries ≡ members_view members.old.entries) }
    ensures returned { IfErr result (λ e. e.value ≡ Some value) }
{
    match members.get_mut(name) {
        Some(place) => return Ok(Made {
            old: Some(mem::replace(place, value)),
            beside: Some(0),
        }),
        None => {}
    }
    let has_others = !members.is_empty();
    let key = match Name::copy_of(alloc, name) {
        Ok(key) => key,
        Err(_) => return Err(Unmade::of(NO_MEMORY, value)),
    };
    drop(members.insert(key, value)?);
    Ok(Made {
        old: None,
        beside: bytes_beside(name, has_others),
    })
}

/// Removes a member that is there (RFC 6902, section 4.2).
pub fn remove(members: &mut NameMap<Tree>, name: &str) -> Result<Made, Unmade>
    ensures made { let made = edit.remove_member name.now (members_view members.old.entries) in
        MatchResult result (λ _. made ≡ Some (members_view members.new.entries)) (λ e. IsMissing made e.fault) }
    ensures taken { IfOk result (λ m. option_map view m.old
        ≡ get_member name.now (members_view members.old.entries)) }
    ensures sized { IfOk result (λ m. Grows change.Remove m
        (size (object (members_view members.old.entries)))
        (size (object (members_view members.new.entries)))) }
    ensures unchanged { OnErr result (members_view members.new.entries ≡ members_view members.old.entries) }
    ensures sure { IfErr result (λ e. e.fault.number ≡ PATCH_MISSING) }
    ensures returned { IfErr result (λ e. e.value ≡ None) }
{
    match members.remove(name) {
        Some(old) => {
            let has_others = !members.is_empty();
            Ok(Made {
                old: Some(old),
                beside: bytes_beside(name, has_others),
            })
        }
        None => Err(Unmade::nothing()),
    }
}

/// Replaces the value of a member that is there (RFC 6902, section 4.3).
pub fn replace(members: &mut NameMap<Tree>, name: &str, value: Tree) -> Result<Made, Unmade>
    ensures made { let made = edit.replace_member (view value) name.now (members_view members.old.entries) in
        MatchResult result (λ _. made ≡ Some (members_view members.new.entries)) (λ e. IsMissing made e.fault) }
    ensures taken { IfOk result (λ m. option_map view m.old
        ≡ get_member name.now (members_view members.old.entries)) }
    ensures sized { IfOk result (λ m. Grows (change.Replace value) m
        (size (object (members_view members.old.entries)))
        (size (object (members_view members.new.entries)))) }
    ensures unchanged { OnErr result (members_view members.new.entries ≡ members_view members.old.entries) }
    ensures sure { IfErr result (λ e. e.fault.number ≡ PATCH_MISSING) }
    ensures returned { IfErr result (λ e. e.value ≡ Some value) }
{
    match members.get_mut(name) {
        Some(place) => Ok(Made {
            old: Some(mem::replace(place, value)),
            beside: Some(0),
        }),
        None => Err(Unmade::of(MISSING, value)),
    }
}

/// Puts a member back that went, into the room that was kept for it. It takes no memory.
pub fn put_in(
    members: &mut NameMap<Tree>,
    name: Name,
    spare: Spare,
    value: Tree,
) -> Result<Made, Unmade>
    ensures made { let made = member_back spare (view value) (string_bytes name) (members_view members.old.entries) in
        MatchResult result (λ _. made ≡ Some (members_view members.new.entries)) (λ e. IsMissing made e.fault) }
    ensures unchanged { OnErr result (members_view members.new.entries ≡ members_view members.old.entries) }
    ensures sure { IfErr result (λ e. e.fault.number ≡ PATCH_MISSING) }
    ensures returned { IfErr result (λ e. e.value ≡ Some value) }
{
    let Spare::Members(room) = spare else {
        return Err(Unmade::of(MISSING, value));
    };
    if members.len() >= room.len() {
        return Err(Unmade::of(MISSING, value));
    }
    match members.get(name.as_str()) {
        Some(_) => return Err(Unmade::of(MISSING, value)),
        None => {}
    }
    members.put_back(room, name, value);
    Ok(Made {
        old: None,
        beside: Some(0),
    })
}

// The bytes of the name and its colon, and of a comma if there are other members.
fn bytes_beside(name: &str, has_others: bool) -> Option<u64>
    ensures { IsBytes result (length (quoted name.now) + 1 + (if has_others then 1 else 0)) }
{
    let len = quoted_len_within(name, DOCUMENT_BYTES)?;
    Some(len + if has_others { 2 } else { 1 })
}
