//! A member by its name.
ghost use Rattle.std.specs.Prelude.{◌≡◌, is_some, option_map};
ghost use Rattle.doc_tree.specs.Doc.{get_member};
ghost use Rattle.doc_tree.specs.TreeView.{view, members_view};
ghost use Rattle.schema_rules.specs.Instances.{seen};
ghost use Rattle.schema_rules.specs.Parts.{members_in};

use crate::instance::Instance;
use doc_tree::Tree;
use name_map::NameMap;

/// The value of the member of that name, `None` if there is none.
pub fn member_named<'t>(members: &'t NameMap<Tree>, name: &str) -> Option<&'t Tree>
    ensures { option_map (λ t. view t.now) result ≡ get_member name.now (members_view members.now.entries) }
{
    members.get(name)
}

/// Whether the instance is an object that has a member of that name.
pub fn has_member(instance: Instance<'_>, name: &str) -> bool
    ensures { result ≡ is_some (get_member name.now (members_in (seen instance.entry))) }
{
    match instance {
        Instance::Value(Tree::Object(members)) => member_named(members, name).is_some(),
        _ => false,
    }
}
