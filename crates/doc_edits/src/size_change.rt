//! The growth of a document by an operation: how its height and the length of its text change, known without a walk
//! over the document.

ghost use Rattle.std.specs.Prelude.{◌≡◌, ◌+◌, ◌<◌, ◌≤◌, ℕ, Some, None, max};
ghost use Rattle.std.specs.Option.{ForSome};
ghost use Rattle.doc_edits.specs.Change.{tokens_of};
ghost use Rattle.doc_edits.specs.SizeChange.{IsBytes, IsKnown, IsOf, IsWeightOf, capped_height, old_size};
ghost use Rattle.doc_edits.specs.Size.{size};
ghost use Rattle.doc_edits.specs.declared.limits.TheConstants.{DOCUMENT_BYTES, DOCUMENT_HEIGHT};
ghost use Rattle.doc_pointer.specs.Place.{resolve};
ghost use Rattle.doc_tree.specs.Doc.{Doc, height};
ghost use Rattle.doc_tree.specs.TreeView.{view};

use crate::limits::{DOCUMENT_BYTES, DOCUMENT_HEIGHT};
use doc_tree::Tree;

/// What is known of a document within the limits, so that the next operation need not walk over it.
#[derive(Clone, Copy, Drop)]
pub struct DocumentSize {
    /// The bytes of its compact text.
    pub len: u64,
    /// The greatest depth to which its arrays and objects may nest.
    pub most: u64,
}

/// The height of a value and the length of its text, each if that is known.
#[derive(Clone, Copy, Drop)]
pub struct KnownSize {
    /// How deep its arrays and objects nest.
    pub height: Option<u64>,
    /// The bytes of its compact text.
    pub len: Option<u64>,
}

/// What is known of the value that an operation put at a place, so that the next one that takes it from there need
/// not walk over it.
#[derive(Clone, Copy, Drop)]
pub struct KnownPlace<'a> {
    /// The place, by the tokens of its operation.
    pub path: &'a [String],
    /// What is known of the value there.
    pub extent: KnownSize,
}

/// How high a value is, and the length of its text.
#[derive(Clone, Copy, Drop)]
pub struct ValueSize {
    /// How deep its arrays and objects nest.
    pub height: u64,
    /// The bytes of its compact text, or `None` if they are more than `DOCUMENT_BYTES`.
    pub len: Option<u64>,
}

/// How deep a moved value nests at its new place, and what is known of it then.
#[derive(Clone, Copy, Drop)]
pub struct MovedHeight {
    /// How deep arrays and objects nest at most from the root down through the value; 0 if that is no deeper than
    /// before.
    pub reach: u64,
    /// How deep those of the value nest, if that is known.
    pub height: Option<u64>,
}

/// What came with an operation, and what went.
#[derive(Clone, Copy, Drop)]
pub struct SizeChange {
    /// How deep arrays and objects nest at most from the root down through what came; 0 if nothing did. It is over the
    /// limit only if they do nest that deep.
    pub reach: u64,
    /// The bytes that came, or `None` if they alone are more than `DOCUMENT_BYTES`.
    pub gained: Option<u64>,
    /// The bytes that went.
    pub lost: u64,
}

impl KnownSize {
    /// Nothing is known.
    pub fn unknown() -> KnownSize
        ensures { result ≡ record { height = None; len = None } }
    {
        KnownSize {
            height: None,
            len: None,
        }
    }
}

impl SizeChange {
    /// Nothing came, and `lost` bytes went.
    pub fn loss(lost: u64) -> SizeChange
        ensures { result ≡ record { reach = 0; gained = Some 0; lost = lost } }
    {
        SizeChange {
            reach: 0,
            gained: Some(0),
            lost,
        }
    }
}

/// The bytes of both, unless one of them is over the limit.
pub fn both(a: Option<u64>, b: Option<u64>) -> Option<u64>
    ensures { (m n : ℕ) → IsBytes a m → IsBytes b n → IsBytes result (m + n) }
{
    a?.checked_add(b?)
}

/// What is known of the value at the place, if the last operation put one there.
pub fn extent_at(known: Option<KnownPlace>, place: &[String]) -> KnownSize
    ensures { (d v : Doc) → ForSome known.entry (λ k. IsKnown k d) → resolve (tokens_of place.now) d ≡ Some v → IsOf result v }
{
    let Some(known) = known else {
        return KnownSize::unknown();
    };
    if known.path == place {
        known.extent
    } else {
        KnownSize::unknown()
    }
}

/// The value's weight, by a walk over it only for what isn't known.
pub fn weigh(value: &Tree, extent: KnownSize) -> ValueSize
    requires { IsOf extent (view value.now) }
    ensures { IsWeightOf result (view value.now) }
{
    ValueSize {
        height: match extent.height {
            Some(height) => height,
            None => value.height(),
        },
        len: match extent.len {
            Some(len) => Some(len),
            None => value.text_len_within(DOCUMENT_BYTES),
        },
    }
}

/// The length of the text of a value that goes, as it is known or by a walk. Within a document that is within the
/// limits it is exact.
pub fn gone_len(value: &Tree, known: Option<u64>) -> u64
    requires { ForSome known (λ n. n ≡ size (view value.now)) }
    ensures { let len = size (view value.now) in len ≤ DOCUMENT_BYTES → result ≡ len }
{
    match known {
        Some(len) => len,
        None => value.text_len_within(DOCUMENT_BYTES).unwrap_or(0),
    }
}

/// The same of what went, if anything did.
pub fn old_len(old: &Option<Tree>) -> u64
    ensures { old_size old.now ≤ DOCUMENT_BYTES → result ≡ old_size old.now }
{
    match old {
        Some(value) => gone_len(value, None),
        None => 0,
    }
}

/// How deep a value that is moved nests at its new place, from the lengths of both places and a bound of the document's
/// height: 0 if it gets no deeper than it was. The value is looked at only if its height isn't known and the document
/// may pass its limit.
pub fn reach_of_move(
    value: &Tree,
    known: Option<u64>,
    from: u64,
    path: u64,
    most: u64,
) -> MovedHeight
    requires { ForSome known (λ h. h ≡ capped_height (view value.now)) }
    ensures deep { DOCUMENT_HEIGHT < result.reach → DOCUMENT_HEIGHT < path + height (view value.now) }
    ensures high { from + height (view value.now) ≤ most → result.reach ≤ DOCUMENT_HEIGHT
        → path + height (view value.now) ≤ max most result.reach }
    ensures known { ForSome result.height (λ h. h ≡ capped_height (view value.now)) }
{
    if path <= from {
        return MovedHeight {
            reach: 0,
            height: known,
        };
    }
    let bound = most.saturating_add(path - from);
    if bound <= DOCUMENT_HEIGHT {
        return MovedHeight {
            reach: bound,
            height: known,
        };
    }
    let height = match known {
        Some(height) => height,
        None => value.height(),
    };
    MovedHeight {
        reach: height.saturating_add(path),
        height: Some(height),
    }
}
