//! The walk along a location.
ghost use Rattle.std.specs.Prelude.{◌≡◌, ℕ, Bool, true, Some, ◌*◌, ◌≤◌, length, map, option_map};
ghost use Rattle.doc_tree.specs.Doc.{Doc};
ghost use Rattle.doc_tree.specs.Place.{place_of};
ghost use Rattle.doc_tree.specs.TreeView.{view};
ghost use Rattle.schema_levels.specs.Counters.{AreCounted};
ghost use Rattle.schema_levels.specs.Nodes.{AreOrdered};
ghost use Rattle.schema_levels.specs.Searched.{AreSearched};
ghost use Rattle.schema_levels.specs.Table.{IsTable};
ghost use Rattle.schema_pattern.specs.Tables.{sources};
ghost use Rattle.schema_changes.specs.Again.{AllPass, HoldsBy, NamePasses, PassBelow, Tells, asked_at};

use crate::again::all_hold;
use crate::must::{close, collect};
use crate::places::{child, collect_at, open_members};
use crate::steady::moves_others;
use crate::whole::all_pass;
use doc_tree::{Step, Tree};
use schema_levels::bits::fill;
use schema_levels::{ChildPlace, Counters, Node};
use schema_pattern::Search;
use schema_rules::Instance;

/// Whether what must hold again along the location does, if the nodes of the set must pass the value. All sets are
/// written over. If `shifts`, an element came to the location's end, or went from there, between others.
#[cycle(along)]
pub(crate) fn along(
    nodes: &[Node],
    counters: &Counters,
    searches: &mut [Search<'_>],
    value: &Tree,
    path: &[Step],
    shifts: bool,
    asked: &mut [u64],
    below: &mut [u64],
    judging: &mut [u64],
    passed: &mut [u64],
    free: &mut [u64],
) -> bool
    requires order { AreOrdered nodes.now }
    requires counted { AreCounted nodes.now counters.now }
    requires searched { AreSearched (sources searches.old) nodes.now }
    requires room { length nodes.now ≤ 64 * length asked.old }
    requires short { length asked.old ≤ 1366 }
    requires below_len { length below.old ≡ length asked.old }
    requires judging_len { length judging.old ≡ length asked.old }
    requires passed_len { length passed.old ≡ length asked.old }
    ensures sound { result ≡ true → (known : ℕ → Doc → Bool) → IsTable nodes.now known → HoldsBy shifts known nodes.now asked.old (map place_of path.now) (view value.now) }
    ensures complete { (known : ℕ → Doc → Bool) → IsTable nodes.now known → AllPass known asked.old (view value.now) → result ≡ true }
    ensures same { sources searches.new ≡ sources searches.old }
{
    match path.split_first() {
        None => all_pass(
            nodes,
            counters,
            searches,
            Instance::Value(value),
            asked,
            judging,
            passed,
            free,
        ),
        Some((step, rest)) => {
            close(nodes, asked);
            if moves_others(nodes, asked, step, rest, shifts) {
                return all_pass(
                    nodes,
                    counters,
                    searches,
                    Instance::Value(value),
                    asked,
                    judging,
                    passed,
                    free,
                );
            }
            open_members(value);
            all_hold(
                nodes, counters, searches, value, asked, judging, passed, free,
            ) && child_passes(
                nodes,
                counters,
                searches,
                child(value, step),
                step,
                rest,
                shifts,
                asked,
                below,
                judging,
                passed,
                free,
            )
        }
    }
}

// Whether what must hold of the child to which the step leads, if there is one, and along the rest, does.
#[cycle(along)]
fn child_passes(
    nodes: &[Node],
    counters: &Counters,
    searches: &mut [Search<'_>],
    found: Option<&Tree>,
    step: &Step,
    rest: &[Step],
    shifts: bool,
    asked: &mut [u64],
    below: &mut [u64],
    judging: &mut [u64],
    passed: &mut [u64],
    free: &mut [u64],
) -> bool
    requires order { AreOrdered nodes.now }
    requires counted { AreCounted nodes.now counters.now }
    requires searched { AreSearched (sources searches.old) nodes.now }
    requires room { length nodes.now ≤ 64 * length asked.old }
    requires short { length asked.old ≤ 1366 }
    requires below_len { length below.old ≡ length asked.old }
    requires judging_len { length judging.old ≡ length asked.old }
    requires passed_len { length passed.old ≡ length asked.old }
    ensures sound { result ≡ true → (known : ℕ → Doc → Bool) → IsTable nodes.now known → (d : Doc) → option_map (λ t. view t.now) found.entry ≡ Some d
        → NamePasses known nodes.now asked.old (place_of step.now) × HoldsBy shifts known nodes.now (asked_at nodes.now asked.old (place_of step.now)) (map place_of rest.now) d }
    ensures complete { (known : ℕ → Doc → Bool) → IsTable nodes.now known
        → ((d : Doc) → option_map (λ t. view t.now) found.entry ≡ Some d → PassBelow known nodes.now asked.old (place_of step.now) d) → result ≡ true }
    ensures same { sources searches.new ≡ sources searches.old }
{
    match found {
        None => true,
        Some(value) => {
            if !name_passes(
                nodes, counters, searches, step, asked, below, judging, passed, free,
            ) {
                return false;
            }
            fill(below, 0);
            collect_at(nodes, searches, step, asked, below);
            along(
                nodes, counters, searches, value, rest, shifts, below, asked, judging, passed, free,
            )
        }
    }
}

// Whether the name that leads to a member passes what names must pass.
fn name_passes(
    nodes: &[Node],
    counters: &Counters,
    searches: &mut [Search<'_>],
    step: &Step,
    asked: &[u64],
    below: &mut [u64],
    judging: &mut [u64],
    passed: &mut [u64],
    free: &mut [u64],
) -> bool
    requires order { AreOrdered nodes.now }
    requires counted { AreCounted nodes.now counters.now }
    requires searched { AreSearched (sources searches.old) nodes.now }
    requires room { length nodes.now ≤ 64 * length asked.now }
    requires short { length asked.now ≤ 1366 }
    requires below_len { length below.old ≡ length asked.now }
    requires judging_len { length judging.old ≡ length asked.now }
    requires passed_len { length passed.old ≡ length asked.now }
    ensures value { (known : ℕ → Doc → Bool) → IsTable nodes.now known → Tells result (NamePasses known nodes.now asked.now (place_of step.now)) }
    ensures same { sources searches.new ≡ sources searches.old }
{
    match step {
        Step::Name(name) => {
            fill(below, 0);
            collect(nodes, asked, ChildPlace::MemberName, below);
            all_pass(
                nodes,
                counters,
                searches,
                Instance::Name(name.as_str()),
                below,
                judging,
                passed,
                free,
            )
        }
        Step::Index(_) => true,
    }
}
