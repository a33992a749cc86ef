ghost use Rattle.std.specs.Prelude.{◌≡◌, ◌<◌, ◌≤◌, ◌+◌, ◌^◌, ◌==◌, ◌++◌, ◌∷◌, [], ℕ, length, IfOk, OnOk, IsTrue, ◌↔◌, if◌then◌else◌, vec_len, vec_capacity};
ghost use Rattle.zr_nodes.specs.Lists.{numbers, first_or, first, after, replaced, without, Has, last_or};
ghost use Rattle.zr_nodes.specs.Places.{place_at, next_of, previous_of, with_next, with_previous, started, bridged, IsListed, IsListing, IsWithin, row};
ghost use Rattle.zr_nodes.specs.declared.leaves.Place.TheVariants.{Out, In};

use crate::NodeId;
use std::alloc::Global;
use std::marker::Model;
use zr_base::NoMemory;

/// Where a node stands to the list of the leaves left to do.
#[derive(Clone, Copy, Debug)]
pub(crate) enum Place {
    /// Outside the list.
    Out,
    /// In the list, with its neighbours there.
    In {
        /// The leaf before this one.
        previous: Option<NodeId>,
        /// The leaf after this one.
        next: Option<NodeId>,
    },
}

/// Where a node stands.
fn place_at(places: &[Place], node: NodeId) -> Place
    requires { node < length places.now }
    ensures { result ≡ place_at places.now node }
{
    places[node.index()]
}

/// The node after this one, if it is in the list and has one.
fn next_at(places: &[Place], node: NodeId) -> Option<NodeId>
    requires { node < length places.now }
    ensures { result ≡ next_of (place_at places.now node) }
{
    match place_at(places, node) {
        Place::In { next, .. } => next,
        Place::Out => None,
    }
}

/// Makes `next` the next of a node.
fn set_next(places: &mut [Place], node: NodeId, next: Option<NodeId>)
    requires { node < length places.old }
    ensures { (k : ℕ) → place_at places.new k ≡ with_next (Some node) next (place_at places.old) k }
{
    if let Place::In { previous, .. } = places[node.index()] {
        places[node.index()] = Place::In { previous, next };
    }
}

/// Makes `previous` the previous of a node.
fn set_previous(places: &mut [Place], node: NodeId, previous: Option<NodeId>)
    requires { node < length places.old }
    ensures { (k : ℕ) → place_at places.new k
        ≡ with_previous (Some node) previous (place_at places.old) k }
{
    if let Place::In { next, .. } = places[node.index()] {
        places[node.index()] = Place::In { previous, next };
    }
}

/// Lets `next` follow the node, or begin the list where there is no node.
fn lead_on(
    places: &mut [Place],
    start: &mut Option<NodeId>,
    node: Option<NodeId>,
    next: Option<NodeId>,
)
    requires { IsWithin node (length places.old) }
    ensures places { (k : ℕ) → place_at places.new k ≡ with_next node next (place_at places.old) k }
    ensures start { start.new ≡ started node next start.old }
{
    match node {
        Some(node) => set_next(places, node, next),
        None => *start = next,
    }
}

/// Lets the node, if there is one, follow `previous`.
fn lead_back(places: &mut [Place], node: Option<NodeId>, previous: Option<NodeId>)
    requires { IsWithin node (length places.old) }
    ensures { (k : ℕ) → place_at places.new k
        ≡ with_previous node previous (place_at places.old) k }
{
    if let Some(node) = node {
        set_previous(places, node, previous);
    }
}

/// Takes a node out of the list, and lets its neighbours lead to `first` and `last` in its place.
fn bridge(
    places: &mut [Place],
    start: &mut Option<NodeId>,
    node: NodeId,
    first: Option<NodeId>,
    last: Option<NodeId>,
)
    requires inside { node < length places.old }
    requires listed { IsListed (place_at places.old node) }
    requires before { IsWithin (previous_of (place_at places.old node)) (length places.old) }
    requires behind { IsWithin (next_of (place_at places.old node)) (length places.old) }
    ensures places { (k : ℕ) → place_at places.new k
        ≡ bridged node first last (place_at places.old) k }
    ensures start { start.new ≡ started (previous_of (place_at places.old node)) first start.old }
{
    let Place::In { previous, next } = places[node.index()] else {
        return;
    };
    lead_on(places, start, previous, first);
    lead_back(places, next, last);
    places[node.index()] = Place::Out;
}

/// The first of so many nodes to come, or where there are none the one after this node.
fn first_new(places: &[Place], node: NodeId, count: u32) -> Option<NodeId>
    requires inside { node < length places.now }
    requires few { length places.now + count < 2 ^ 32 }
    ensures { result
        ≡ first_or (numbers (length places.now) count) (next_of (place_at places.now node)) }
{
    if count == 0 {
        next_at(places, node)
    } else {
        Some(NodeId::new(places.len() as u32))
    }
}

/// Adds so many leaves in a row between these two, whose own links stay, and gives the last one
/// before `next`.
fn push_row(
    places: &mut Vec<Place>,
    previous: Option<NodeId>,
    next: Option<NodeId>,
    count: u32,
) -> Option<NodeId>
    requires room { vec_len places.old + count ≤ vec_capacity places.old }
    requires few { vec_len places.old + count < 2 ^ 32 }
    ensures items { places.new.items
        ≡ places.old.items ++ row previous (vec_len places.old) count next }
    ensures len { vec_len places.new ≡ vec_len places.old + count }
    ensures last { result ≡ last_or previous (numbers (vec_len places.old) count) }
    ensures capacity { vec_capacity places.old ≤ vec_capacity places.new }
{
    let mut last = previous;
    for i in 0..count {
        let number = places.len() as u32;
        let after = if i + 1 == count {
            next
        } else {
            Some(NodeId::new(number + 1))
        };
        let place = Place::In {
            previous: last,
            next: after,
        };
        let Ok(()) = places.push(place) else {
            unreachable!();
        };
        last = Some(NodeId::new(number));
    }
    last
}

/// The leaves that are left to do, in their order, of a tree whose nodes are numbers.
#[derive(Debug, Drop)]
pub(crate) struct Leaves {
    places: Vec<Place>,
    first: Option<NodeId>,
}

impl Model for Leaves {
    ghost use Rattle.std.specs.Prelude.{length, vec_capacity};
    ghost use Rattle.zr_nodes.specs.Places.{Left, order_of, IsLinked};

    ghost Value = { Left };

    ghost view = { λ a. record {
      size = length a.places.items;
      order = order_of a.places.items a.first;
      room = vec_capacity a.places;
    } };

    ghost invariant = { λ a. IsLinked a.places.items a.first (order_of a.places.items a.first) };
}

impl Leaves {
    /// The root of a new tree, left to do.
    pub(crate) fn new(alloc: Global) -> Result<Leaves, NoMemory>
        ensures size { IfOk result (λ a. a.size ≡ 1) }
        ensures order { IfOk result (λ a. a.order ≡ 0 ∷ []) }
        ensures room { IfOk result (λ a. 1 ≤ a.room) }
    {
        let mut places = Vec::new(alloc);
        let root = Place::In {
            previous: None,
            next: None,
        };
        match places.push(root) {
            Ok(()) => Ok(Leaves {
                places,
                first: Some(NodeId::new(0)),
            }),
            Err(_) => Err(NoMemory),
        }
    }

    /// Makes room for so many nodes more.
    pub(crate) fn reserve(&mut self, count: u32) -> Result<(), NoMemory>
        ensures size { self.new.size ≡ self.old.size }
        ensures order { self.new.order ≡ self.old.order }
        ensures room { OnOk result (self.old.size + count ≤ self.new.room) }
        ensures capacity { self.old.room ≤ self.new.room }
    {
        match self.places.reserve(count as usize) {
            Ok(()) => Ok(()),
            Err(_) => Err(NoMemory),
        }
    }

    /// Whether the node is left to do.
    pub(crate) fn contains(&self, node: NodeId) -> bool
        requires { node < self.now.size }
        ensures { IsTrue result ↔ Has self.now.order node }
    {
        matches!(place_at(&self.places, node), Place::In { .. })
    }

    /// The first leaf left.
    pub(crate) fn first(&self) -> Option<NodeId>
        ensures { result ≡ first self.now.order }
    {
        self.first
    }

    /// The leaf after one that is left.
    pub(crate) fn next(&self, node: NodeId) -> Option<NodeId>
        requires { Has self.now.order node }
        ensures { result ≡ after node self.now.order }
    {
        next_at(&self.places, node)
    }

    /// Puts so many new nodes, in a row, in the place of a leaf that is left.
    pub(crate) fn replace(&mut self, node: NodeId, count: u32)
        requires left { Has self.old.order node }
        requires room { self.old.size + count ≤ self.old.room }
        requires few { self.old.size + count < 2 ^ 32 }
        ensures size { self.new.size ≡ self.old.size + count }
        ensures order { self.new.order
            ≡ replaced node (numbers self.old.size count) self.old.order }
        ensures listing { IsListing self.old }
        ensures capacity { self.old.room ≤ self.new.room }
    {
        let first = first_new(&self.places, node, count);
        let Place::In { previous, next } = place_at(&self.places, node) else {
            unreachable!();
        };
        let last = push_row(&mut self.places, previous, next, count);
        bridge(&mut self.places, &mut self.first, node, first, last);
    }

    /// Puts a node that is not left to do at the front.
    fn push_front(&mut self, node: NodeId)
        requires inside { node < self.old.size }
        requires apart { ¬ Has self.old.order node }
        requires short { length self.old.order < self.old.size }
        ensures size { self.new.size ≡ self.old.size }
        ensures order { self.new.order ≡ node ∷ self.old.order }
        ensures capacity { self.old.room ≤ self.new.room }
    {
        lead_back(&mut self.places, self.first, Some(node));
        self.places[node.index()] = Place::In {
            previous: None,
            next: self.first,
        };
        self.first = Some(node);
    }

    /// Moves a leaf that is left to the front.
    pub(crate) fn move_front(&mut self, node: NodeId)
        requires left { Has self.old.order node }
        requires room { self.old.size ≤ self.old.room }
        requires few { self.old.size < 2 ^ 32 }
        ensures size { self.new.size ≡ self.old.size }
        ensures order { self.new.order ≡ node ∷ without node self.old.order }
        ensures capacity { self.old.room ≤ self.new.room }
    {
        self.replace(node, 0);
        self.push_front(node);
    }
}
