//! Numbers by their ranks in an order.
ghost use Rattle.std.specs.Prelude.{◌≡◌, IfOk};
ghost use Rattle.schema_graph.specs.Orders.{at};
ghost use Rattle.schema_nodes.specs.Nodes.{Moved, AreMoved};

use std::alloc::{AllocError, Global};

/// The rank of a number.
pub(crate) fn rank_of(ranks: &[usize], number: usize) -> usize
    ensures { result ≡ at ranks.now number }
{
    match ranks.get(number) {
        Some(rank) => *rank,
        None => 0,
    }
}

/// The ranks of the numbers in rows.
pub(crate) fn moved_rows(
    rows: &[Vec<usize>],
    ranks: &[usize],
    alloc: Global,
) -> Result<Vec<Vec<usize>>, AllocError>
    ensures { IfOk result (λ v. AreMoved ranks.now rows.now v.items) }
{
    let mut moved = Vec::with_capacity(alloc, rows.len())?;
    for row in rows {
        moved.push(moved_row(row, ranks, alloc)?)?;
    }
    Ok(moved)
}

fn moved_row(row: &[usize], ranks: &[usize], alloc: Global) -> Result<Vec<usize>, AllocError>
    ensures { IfOk result (λ v. Moved ranks.now row.now v.items) }
{
    let mut moved = Vec::with_capacity(alloc, row.len())?;
    for number in row {
        moved.push(rank_of(ranks, *number))?;
    }
    Ok(moved)
}
