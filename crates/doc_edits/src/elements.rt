//! Changes of one element of an array.

ghost use Rattle.std.specs.Prelude.{◌≡◌, None, Some, IfErr, IfOk, MatchResult, OnErr, option_map};
ghost use Rattle.doc_edits.specs.Edit as edit;
ghost use Rattle.doc_edits.specs.SizeChange.{Grows};
ghost use Rattle.doc_edits.specs.Size as sizes;
ghost use Rattle.doc_edits.specs.Size.{size};
ghost use Rattle.doc_edits.specs.OperationFault.{IsMissing};
ghost use Rattle.doc_edits.specs.Spare.{item_back};
ghost use Rattle.doc_edits.specs.declared.change.Change.TheVariants as change;
ghost use Rattle.doc_pointer.specs.Place.{child_named};
ghost use Rattle.doc_tree.specs.Doc.{list};
ghost use Rattle.refusals.specs.declared.numbers.TheConstants.{PATCH_MISSING};
ghost use Rattle.doc_tree.specs.TreeView.{view, elements_view};

use crate::change::Made;
use crate::fault::{MISSING, Unmade};
use crate::index::index_within;
use crate::spare::{Spare, put_item_in};
use doc_tree::Tree;
use std::mem;

/// Adds an element before an index of at most the length, or at the end for `-` (RFC 6902, section
/// 4.1).
pub fn add(items: &mut Vec<Tree>, token: &str, value: Tree) -> Result<Made, Unmade>
    ensures made { let made = edit.add_item (view value) token.now (elements_view items.old.items) in
        MatchResult result (λ _. made ≡ Some (elements_view items.new.items)) (λ e. IsMissing made e.fault) }
    ensures sized { IfOk result (λ m. Grows (change.Add value) m
        (size (list (elements_view items.old.items)))
        (size (list (elements_view items.new.items)))) }
    ensures unchanged { OnErr result (elements_view items.new.items ≡ elements_view items.old.items) }
    ensures taken { IfOk result (λ m. m.old ≡ None) }
    ensures returned { IfErr result (λ e. e.value ≡ Some value) }
{
    let beside = Some(comma_beside(items));
    if token == "-" {
        items.push(value)?;
        return Ok(Made { old: None, beside });
    }
    match index_within(token, items.len() as u64 + 1) {
        Some(index) => items.insert(index, value)?,
        None => return Err(Unmade::of(MISSING, value)),
    }
    Ok(Made { old: None, beside })
}

/// Removes an element that is there; those after it move left (RFC 6902, section 4.2).
pub fn remove(items: &mut Vec<Tree>, token: &str) -> Result<Made, Unmade>
    ensures made { let made = edit.remove_item token.now (elements_view items.old.items) in
        MatchResult result (λ _. made ≡ Some (elements_view items.new.items)) (λ e. IsMissing made e.fault) }
    ensures taken { IfOk result (λ m. option_map view m.old
        ≡ child_named token.now (list (elements_view items.old.items))) }
    ensures sized { IfOk result (λ m. Grows change.Remove m
        (size (list (elements_view items.old.items)))
        (size (list (elements_view items.new.items)))) }
    ensures unchanged { OnErr result (elements_view items.new.items ≡ elements_view items.old.items) }
    ensures sure { IfErr result (λ e. e.fault.number ≡ PATCH_MISSING) }
    ensures returned { IfErr result (λ e. e.value ≡ None) }
{
    match index_within(token, items.len() as u64) {
        Some(index) => Ok(Made {
            old: Some(items.remove(index)),
            beside: Some(comma_beside(items)),
        }),
        None => Err(Unmade::nothing()),
    }
}

/// Replaces an element that is there (RFC 6902, section 4.3).
pub fn replace(items: &mut Vec<Tree>, token: &str, value: Tree) -> Result<Made, Unmade>
    ensures made { let made = edit.replace_item (view value) token.now (elements_view items.old.items) in
        MatchResult result (λ _. made ≡ Some (elements_view items.new.items)) (λ e. IsMissing made e.fault) }
    ensures sized { IfOk result (λ m. Grows (change.Replace value) m
        (size (list (elements_view items.old.items)))
        (size (list (elements_view items.new.items)))) }
    ensures unchanged { OnErr result (elements_view items.new.items ≡ elements_view items.old.items) }
    ensures sure { IfErr result (λ e. e.fault.number ≡ PATCH_MISSING) }
    ensures taken { IfOk result (λ m. option_map view m.old
        ≡ child_named token.now (list (elements_view items.old.items))) }
    ensures returned { IfErr result (λ e. e.value ≡ Some value) }
{
    match index_within(token, items.len() as u64) {
        Some(index) => Ok(Made {
            old: Some(mem::replace(&mut items[index], value)),
            beside: Some(0),
        }),
        None => Err(Unmade::of(MISSING, value)),
    }
}

/// Puts an element back that went, into the room that was kept for it. It takes no memory.
pub fn put_in(items: &mut Vec<Tree>, token: &str, spare: Spare, value: Tree) -> Result<Made, Unmade>
    ensures made { let made = item_back spare (view value) token.now (elements_view items.old.items) in
        MatchResult result (λ _. made ≡ Some (elements_view items.new.items)) (λ e. IsMissing made e.fault) }
    ensures unchanged { OnErr result (elements_view items.new.items ≡ elements_view items.old.items) }
    ensures sure { IfErr result (λ e. e.fault.number ≡ PATCH_MISSING) }
    ensures returned { IfErr result (λ e. e.value ≡ Some value) }
{
    let Spare::Elements(room) = spare else {
        return Err(Unmade::of(MISSING, value));
    };
    if items.len() >= room.len() {
        return Err(Unmade::of(MISSING, value));
    }
    match index_within(token, items.len() as u64 + 1) {
        Some(index) => {
            put_item_in(items, room, index, value);
            Ok(Made {
                old: None,
                beside: Some(0),
            })
        }
        None => Err(Unmade::of(MISSING, value)),
    }
}

// The byte of the comma beside a further element.
fn comma_beside(items: &Vec<Tree>) -> u64
    ensures { result ≡ sizes.comma_beside (elements_view items.now.items) }
{
    if items.is_empty() { 0 } else { 1 }
}
