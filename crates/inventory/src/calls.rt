//! The program's use of its store by calls.

ghost use Rattle.std.specs.Prelude.{IfOk};
ghost use Rattle.inventory.specs.Low.{AreLow};

use crate::fault::Fault;
use doc_store::{Command, Store};
use doc_tree::Tree;
use path_parse::Query;
use sector_device::SectorDevice;
use std::alloc::Global;

/// Every count on a shelf is a whole number from 0.
const COUNTS: &[u8] = br#"{"additionalProperties":{"minimum":0,"type":"integer"}}"#;

/// Puts a shelf of that name into the store, with its contents, unless it is there, and counts its nuts anew. Each of
/// the two changes is on the device when its call comes back.
pub fn take_in<D: SectorDevice>(
    alloc: Global,
    store: &mut Store<D>,
    name: &str,
) -> Result<(), Fault> {
    if !store.list()?.contains(&name) {
        let _ = store.execute(Command::Create {
            name: String::from_str(alloc, name)?,
            schema: Tree::read(alloc, COUNTS)?,
            doc: Tree::read(alloc, br#"{"bolts":40,"nuts":12}"#)?,
        })?;
    }
    let _ = store.execute(Command::Patch {
        name: String::from_str(alloc, name)?,
        ops: Tree::read(alloc, br#"[{"op":"replace","path":"/nuts","value":11}]"#)?,
        if_rev: None,
    })?;
    Ok(())
}

/// How many counts of the shelf of that name are under 20.
pub fn count_low<D: SectorDevice>(
    alloc: Global,
    store: &Store<D>,
    name: &str,
) -> Result<usize, Fault>
    ensures { IfOk result (AreLow store.now.account.state name.now) }
{
    let low = Query::read(alloc, "$[?@ < 20]")?;
    Ok(store.query(name, &low)?.len())
}
