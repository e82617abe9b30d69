//! The value at a location of a document.
ghost use Rattle.std.specs.Prelude.{◌≡◌, option_map, map};
ghost use Rattle.doc_tree.specs.Doc.{child, at, get_element, get_member};
ghost use Rattle.doc_tree.specs.Doc as place;
ghost use Rattle.doc_tree.specs.Place.{place_of};
ghost use Rattle.doc_tree.specs.TreeView.{view, elements_view, members_view};

use crate::tree::{Step, Tree};
use name_map::NameMap;

impl Tree {
    /// The value at the end of the steps: the tree itself for no steps, `None` if a step leads nowhere.
    pub fn at(&self, steps: &[Step]) -> Option<&Tree>
        ensures { option_map (λ t. view t.now) result ≡ at (map place_of steps.now) (view self.now) }
    {
        let mut here = self;
        for step in steps {
            here = child_at(here, step)?;
        }
        Some(here)
    }

    /// The member of that name; `None` if there is none, or the value is no object.
    pub fn member(&self, name: &str) -> Option<&Tree>
        ensures { option_map (λ t. view t.now) result ≡ child (place.name name.now) (view self.now) }
    {
        match self {
            Tree::Object(members) => member_named(members, name),
            _ => None,
        }
    }

    /// The element at that index, counted from 0; `None` if there is none, or the value is no list.
    pub fn item(&self, index: u64) -> Option<&Tree>
        ensures { option_map (λ t. view t.now) result ≡ child (place.index index) (view self.now) }
    {
        match self {
            Tree::List(items) => item_at(items, index),
            _ => None,
        }
    }
}

fn child_at<'t>(tree: &'t Tree, step: &Step) -> Option<&'t Tree>
    ensures { option_map (λ t. view t.now) result ≡ child (place_of step.now) (view tree.now) }
{
    match step {
        Step::Name(name) => match tree {
            Tree::Object(members) => member_named(members, name.as_str()),
            _ => None,
        },
        Step::Index(index) => match tree {
            Tree::List(items) => item_at(items, *index),
            _ => None,
        },
    }
}

fn item_at(items: &Vec<Tree>, index: u64) -> Option<&Tree>
    ensures { option_map (λ t. view t.now) result ≡ get_element index (elements_view items.now.items) }
{
    if index < items.len() as u64 {
        Some(&items[index as usize])
    } else {
        None
    }
}

fn member_named<'t>(members: &'t NameMap<Tree>, name: &str) -> Option<&'t Tree>
    ensures { option_map (λ t. view t.now) result
        ≡ get_member name.now (members_view members.now.entries) }
{
    members.get(name)
}
