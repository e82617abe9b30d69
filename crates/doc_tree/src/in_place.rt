//! The members or elements of a tree, lent for writing in place.
use crate::tree::Tree;
use name_map::NameMap;

impl Tree {
    ghost use Rattle.std.specs.Prelude.{◌≡◌, option_map};
    ghost use Rattle.std.specs.Borrow.{LendsIf, sem};
    ghost use Rattle.doc_tree.specs.contracts.tree.Tree.{the_row};
    ghost use Rattle.doc_tree.specs.declared.tree.Tree.{List, Object};
    ghost use Rattle.doc_tree.specs.Doc.{as_list, as_object};
    ghost use Rattle.doc_tree.specs.Rows.{list_row, map_row};
    ghost use Rattle.doc_tree.specs.TreeView.{view, elements_view, members_view};

    /// The members of an object, to be changed in place; `None` for any other value.
    pub fn as_object_mut(&mut self) -> Option<&mut NameMap<Tree>>
        ensures* writes_back { sem 𝓛 (LendsIf the_row map_row self.entry result Object self.old) }
        ensures value { option_map (λ m. members_view m.now.entries) result
            ≡ as_object (view self.old) }
    {
        if let Tree::Object(members) = self {
            Some(members)
        } else {
            None
        }
    }

    /// The elements of a list, to be changed in place; `None` for any other value.
    pub fn as_list_mut(&mut self) -> Option<&mut Vec<Tree>>
        ensures* writes_back { sem 𝓛 (LendsIf the_row list_row self.entry result List self.old) }
        ensures value { option_map (λ v. elements_view v.now.items) result
            ≡ as_list (view self.old) }
    {
        if let Tree::List(items) = self {
            Some(items)
        } else {
            None
        }
    }
}
