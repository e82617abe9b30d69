//! One walk over a graph with marks. It puts the places in an order, or finds that the graph has a loop.

ghost use Rattle.std.specs.Prelude.{◌≡◌, ◌<◌, ◌+◌, IfOk, IsTrue, MatchOption, false, length, set};
ghost use Rattle.schema_graph.specs.Marks.{IsSettled, LeadTo, Goes, mark};
ghost use Rattle.schema_graph.specs.Numbered.{IsClosed, IsCyclic, row_at};
ghost use Rattle.schema_graph.specs.Orders.{IsOrder, IsWalk};
ghost use Rattle.schema_graph.specs.declared.walk.Mark.TheVariants.{Unseen, Open, Done};

use std::alloc::{AllocError, Global};

/// How far the walk is with a place.
#[derive(Clone, Copy, Drop, PartialEq, Eq)]
pub enum Mark {
    /// The walk has not been there.
    Unseen,
    /// The walk is on the way from there.
    Open,
    /// All that it leads to is known, and nothing of it leads back.
    Done,
}

/// The places of a graph in an order in which each comes after those that it leads to.
#[derive(Drop)]
pub struct Order {
    /// The places in order.
    pub places: Vec<usize>,
    /// For each place, how many come before it.
    pub ranks: Vec<usize>,
}

/// A walk under way.
#[derive(Drop)]
pub struct Walk {
    /// How far it is with each place.
    pub marks: Vec<Mark>,
    /// The places that it is done with, in order.
    pub places: Vec<usize>,
    /// For each of them, how many come before it.
    pub ranks: Vec<usize>,
    /// How many they are.
    pub count: usize,
}

/// The places in order; none if the graph, given by the places that each place leads to, has a loop. An error means
/// that memory ran out.
pub fn order_of(alloc: Global, graph: &[Vec<usize>]) -> Result<Option<Order>, AllocError>
    requires { IsClosed graph.now }
    ensures { IfOk result (λ found. MatchOption found (IsCyclic graph.now) (λ o. IsOrder graph.now o.places.items o.ranks.items)) }
{
    let mut walk = Walk {
        marks: vec![in alloc; Mark::Unseen; graph.len()]?,
        places: vec![in alloc; 0usize; graph.len()]?,
        ranks: vec![in alloc; 0usize; graph.len()]?,
        count: 0,
    };
    for place in 0..graph.len() {
        if walk.marks[place] == Mark::Unseen && visit(graph, &mut walk, place) {
            return Ok(None);
        }
    }
    Ok(Some(Order {
        places: walk.places,
        ranks: walk.ranks,
    }))
}

// The places that a place leads to.
fn row(graph: &[Vec<usize>], place: usize) -> &[usize]
    requires { place < length graph.now }
    ensures { result.now ≡ row_at graph.now place }
{
    graph[place].as_slice()
}

// Walks on from an unseen place, and says whether a loop was met.
fn visit(graph: &[Vec<usize>], walk: &mut Walk, place: usize) -> bool
    requires here { place < length graph.now }
    requires walk { IsWalk graph.now walk.old }
    requires closed { IsClosed graph.now }
    requires unseen { mark walk.old.marks.items place ≡ Unseen }
    requires lead { LeadTo graph.now walk.old.marks.items place }
    ensures found { IsTrue result → IsCyclic graph.now }
    ensures walk { result ≡ false → IsWalk graph.now walk.new }
    ensures goes { result ≡ false → Goes walk.old.marks.items walk.new.marks.items }
    ensures done { result ≡ false → mark walk.new.marks.items place ≡ Done }
{
    open(walk, place);
    for next in row(graph, place) {
        match mark_of(walk, *next) {
            Mark::Open => return true,
            Mark::Unseen => {
                if visit(graph, walk, *next) {
                    return true;
                }
            }
            Mark::Done => {}
        }
    }
    finish(walk, place);
    false
}

fn mark_of(walk: &Walk, place: usize) -> Mark
    requires { place < length walk.now.marks.items }
    ensures { result ≡ mark walk.now.marks.items place }
{
    walk.marks[place]
}

// Begins to walk from a place.
fn open(walk: &mut Walk, place: usize)
    requires { place < length walk.old.marks.items }
    ensures marks { walk.new.marks.items ≡ set walk.old.marks.items place Open }
    ensures places { walk.new.places ≡ walk.old.places }
    ensures ranks { walk.new.ranks ≡ walk.old.ranks }
    ensures count { walk.new.count ≡ walk.old.count }
{
    walk.marks[place] = Mark::Open;
}

// Puts a place after those in the order.
fn finish(walk: &mut Walk, place: usize)
    requires marks { place < length walk.old.marks.items }
    requires places { walk.old.count < length walk.old.places.items }
    requires ranks { place < length walk.old.ranks.items }
    ensures marks { walk.new.marks.items ≡ set walk.old.marks.items place Done }
    ensures places { walk.new.places.items ≡ set walk.old.places.items walk.old.count place }
    ensures ranks { walk.new.ranks.items ≡ set walk.old.ranks.items place walk.old.count }
    ensures count { walk.new.count ≡ walk.old.count + 1 }
{
    walk.marks[place] = Mark::Done;
    walk.places[walk.count] = place;
    walk.ranks[place] = walk.count;
    walk.count += 1;
}
