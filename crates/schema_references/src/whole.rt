//! The whole schema, in which references are followed.
ghost use Rattle.std.specs.Prelude.{◌≡◌, ◌&&◌, ℕ, IfOk, List, cond, is_some, map, not, true};
ghost use Rattle.std.specs.BTreeSet.{contains_text};
ghost use Rattle.std.specs.Str.{bytes_eq};
ghost use Rattle.doc_tree.specs.TreeView.{view};
ghost use Rattle.schema_rules.specs.Anchors.{anchors_of, are_different, with_anchor};
ghost use Rattle.schema_rules.specs.Schemas.{schemas};
ghost use Rattle.schema_references.specs.Listed.{HasAll};

use crate::anchors::anchors_of;
use doc_tree::Tree;
use std::alloc::{AllocError, Global};
use std::collections::BTreeSet;
use std::marker::Model;

/// The whole schema, and the anchors of the schemas in it, to be found by a reference without a walk. Clauses see it as
/// the schema's tree.
#[derive(Drop)]
pub struct Whole<'t> {
    root: &'t Tree,
    anchors: Anchors,
}

/// Some texts, each once.
#[derive(Drop)]
pub(crate) struct Anchors {
    /// The texts.
    pub names: BTreeSet<String>,
    /// Whether no two were equal.
    pub are_different: bool,
}

impl<'t> Model for Whole<'t> {
    ghost use Rattle.doc_tree.specs.TreeView as seen;
    ghost use Rattle.doc_tree.specs.contracts.tree.Tree as tree;
    ghost use Rattle.doc_tree.specs.declared.tree.Tree.{Tree};
    ghost use Rattle.schema_rules.specs.Anchors.{anchors_of};
    ghost use Rattle.schema_rules.specs.Schemas.{schemas};
    ghost use Rattle.schema_references.specs.Listed.{HasAll};

    ghost Value = { Tree };

    ghost coded = { tree.the_row.coded };

    ghost view = { λ w. w.root.now };

    ghost invariant = { λ w. HasAll (anchors_of (schemas (seen.view w.root.now))) w.anchors.names w.anchors.are_different };
}

impl<'t> Whole<'t> {
    /// The schema with its anchors. An error means that memory ran out; none is taken without anchors.
    pub fn of(root: &'t Tree, alloc: Global) -> Result<Whole<'t>, AllocError>
        ensures { IfOk result (λ w. w ≡ root.now) }
    {
        let names = anchors_of(root, alloc)?;
        let anchors = listed(&names, alloc)?;
        Ok(Whole { root, anchors })
    }

    /// The schema's tree.
    pub fn tree(&self) -> &'t Tree
        ensures { result.now ≡ self.now }
    {
        self.root
    }

    /// Whether no two schemas in it have the same anchor.
    pub fn anchors_are_different(&self) -> bool
        ensures { result ≡ are_different (anchors_of (schemas (view self.now))) }
    {
        self.anchors.are_different
    }

    /// Whether some schema in it has this anchor.
    pub fn has_anchor(&self, name: &str) -> bool
        ensures { result ≡ is_some (with_anchor name.now (schemas (view self.now))) }
    {
        self.anchors.names.contains(name)
    }
}

// The texts, each once.
fn listed(names: &[&str], alloc: Global) -> Result<Anchors, AllocError>
    ensures { IfOk result (λ a. HasAll (map (λ s. s.now) names.now) a.names a.are_different) }
{
    let mut all = Anchors {
        names: BTreeSet::new(alloc),
        are_different: true,
    };
    for name in names {
        all = with_name(name, all, alloc)?;
    }
    Ok(all)
}

// Adds one.
fn with_name(name: &str, before: Anchors, alloc: Global) -> Result<Anchors, AllocError>
    ensures kept { IfOk result (λ a. (s : List ℕ) → contains_text a.names s ≡ cond (bytes_eq name.now s) true (contains_text before.names s)) }
    ensures known { IfOk result (λ a. a.are_different ≡ (before.are_different && not (contains_text before.names name.now))) }
{
    let mut names = before.names;
    let text = String::from_str(alloc, name)?;
    let is_new = names.insert(text)?;
    Ok(Anchors {
        names,
        are_different: before.are_different && is_new,
    })
}
