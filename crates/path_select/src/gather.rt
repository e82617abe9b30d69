//! Lists that take what is selected, up to the limit.
ghost use Rattle.std.specs.Prelude.{◌++◌, length};
ghost use Rattle.path_select.specs.Gives.{Gives};
ghost use Rattle.path_select.specs.Limit.{is_over};
ghost use Rattle.path_select.specs.Values.{child_values};
ghost use Rattle.path_select.specs.ChildView.{children_of, docs_of};

use crate::children::Child;
use crate::limits::NODES;
use crate::stop::Stop;
use doc_tree::Tree;

/// The children that were selected, and more of them; `Stop::TooMany` if they are too many for a list.
pub fn and_children<'t>(found: Vec<Child<'t>>, more: Vec<Child<'t>>) -> Result<Vec<Child<'t>>, Stop>
    ensures { Gives (λ all. children_of all.items) result
        (is_over (length (children_of found.entry.items ++ children_of more.entry.items)))
        (children_of found.entry.items ++ children_of more.entry.items) }
{
    if more.len() + found.len() > NODES {
        return Err(Stop::TooMany);
    }
    if found.is_empty() {
        return Ok(more);
    }
    let mut all = found;
    all.extend_from_slice(&more)?;
    Ok(all)
}

/// The values that are listed, and those of the children; `Stop::TooMany` if they are too many for a list.
pub fn and_values<'t>(listed: Vec<&'t Tree>, more: Vec<Child<'t>>) -> Result<Vec<&'t Tree>, Stop>
    ensures { Gives (λ all. docs_of all.items) result
        (is_over (length (docs_of listed.entry.items ++ child_values (children_of more.entry.items))))
        (docs_of listed.entry.items ++ child_values (children_of more.entry.items)) }
{
    if more.len() + listed.len() > NODES {
        return Err(Stop::TooMany);
    }
    let mut all = listed;
    for child in &more {
        all.push(child.value)?;
    }
    Ok(all)
}
