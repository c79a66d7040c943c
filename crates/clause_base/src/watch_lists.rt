//! Linked lists of numbered nodes, in which a node changes its list without memory.
//!
//! A link and what is written on a node are numbers of 32 bits, side by side, so that a walk along a list reads both
//! at once, and the two nodes of a clause stand in one cache line.
ghost use Rattle.std.specs.Prelude.{◌≡◌, ◌≢◌, ℕ, ◌+◌, ◌^◌, ◌<◌, ◌≤◌, ◌++◌, ◌∷◌, [], length, Some, None, Option, List};
ghost use Rattle.std.specs.Prelude.{Contains, OnOk, slice_get, slice_index, slice_set};
ghost use Rattle.clause_base.specs.Links.{node_of, first_of, last_of};
ghost use Rattle.clause_base.specs.ListsFields.{labels_of, links_of};
ghost use Rattle.clause_base.specs.ListsState.{HasLaws, nodes_of};

use lit_core::Memory;
use std::alloc::Global;
use std::marker::Model;

/// A node of a list.
#[derive(Clone, Copy, Debug)]
struct Node {
    /// The node after it plus one, or 0.
    next: u32,
    /// What is written on it.
    label: u32,
}

/// Numbered lists of numbered nodes, with a number written on each node. A node is in at most one list, and there
/// once.
#[derive(Debug, Drop)]
pub struct LinkedLists {
    /// For each list its first node plus one, or 0.
    heads: Vec<u32>,
    nodes: Vec<Node>,
}

impl Model for LinkedLists {
    ghost use Rattle.clause_base.specs.ListsState.{ListsState};

    ghost Value = { ListsState };

    ghost use Rattle.clause_base.specs.ListsFields.{state_of, IsKept};

    ghost view = { state_of };

    ghost invariant = { IsKept };
}

/// The node that a link leads to.
fn node_at(link: u32) -> Option<usize>
    ensures { result ≡ node_of link }
{
    match link {
        0 => None,
        _ => Some(link as usize - 1),
    }
}

/// Adds zeros, so that there are at least `len` numbers.
fn add_zeros(numbers: &mut Vec<u32>, len: usize) -> Result<(), Memory>
    ensures same { (k : ℕ) → slice_index numbers.new.items k ≡ slice_index numbers.old.items k }
    ensures longer { length numbers.old.items ≤ length numbers.new.items }
    ensures enough { OnOk result (len ≤ length numbers.new.items) }
{
    if numbers.len() < len {
        numbers.resize(len, 0)?;
    }
    Ok(())
}

/// Makes all numbers 0.
fn write_zeros(numbers: &mut Vec<u32>)
    ensures zero { (k : ℕ) → slice_index numbers.new.items k ≡ 0 }
    ensures len { length numbers.new.items ≡ length numbers.old.items }
{
    for number in numbers.iter_mut() {
        *number = 0;
    }
}

/// Adds nodes of no list, so that there are at least `len`.
fn add_unlinked(nodes: &mut Vec<Node>, len: usize) -> Result<(), Memory>
    ensures links { (k : ℕ) → slice_index (links_of nodes.new.items) k ≡ slice_index (links_of nodes.old.items) k }
    ensures labels { (k x : ℕ) → slice_get (labels_of nodes.old.items) k ≡ Some x
        → slice_get (labels_of nodes.new.items) k ≡ Some x }
    ensures longer { length nodes.old.items ≤ length nodes.new.items }
    ensures enough { OnOk result (len ≤ length nodes.new.items) }
    ensures small { length nodes.old.items < 2 ^ 32 → length nodes.new.items < 2 ^ 32 }
{
    if len > u32::MAX as usize {
        return Err(Memory);
    }
    if nodes.len() < len {
        nodes.resize(len, Node { next: 0, label: 0 })?;
    }
    Ok(())
}

/// Writes the link of a node.
fn set_next(nodes: &mut Vec<Node>, node: usize, next: u32)
    requires { node < length nodes.old.items }
    ensures links { links_of nodes.new.items ≡ slice_set (links_of nodes.old.items) node next }
    ensures labels { labels_of nodes.new.items ≡ labels_of nodes.old.items }
{
    let label = nodes[node].label;
    nodes[node] = Node { next, label };
}

impl LinkedLists {
    /// No list and no node.
    pub fn new(alloc: Global) -> LinkedLists
        ensures count { length result.lists ≡ 0 }
        ensures labels { result.labels ≡ [] }
        ensures empty { (j : ℕ) → nodes_of result j ≡ [] }
        ensures laws { HasLaws result }
    {
        LinkedLists {
            heads: Vec::new(alloc),
            nodes: Vec::new(alloc),
        }
    }

    /// Adds empty lists, so that there are at least `count`.
    pub fn add_lists(&mut self, count: usize) -> Result<(), Memory>
        ensures lists { (j : ℕ) → nodes_of self.new j ≡ nodes_of self.old j }
        ensures longer { length self.old.lists ≤ length self.new.lists }
        ensures labels { self.new.labels ≡ self.old.labels }
        ensures enough { OnOk result (count ≤ length self.new.lists) }
        ensures laws { HasLaws self.new }
    {
        add_zeros(&mut self.heads, count)
    }

    /// Adds nodes that are in no list, so that there are at least `nodes`.
    pub fn add_nodes(&mut self, nodes: usize) -> Result<(), Memory>
        ensures lists { (j : ℕ) → nodes_of self.new j ≡ nodes_of self.old j }
        ensures count { length self.new.lists ≡ length self.old.lists }
        ensures kept { (k x : ℕ) → slice_get self.old.labels k ≡ Some x → slice_get self.new.labels k ≡ Some x }
        ensures longer { length self.old.labels ≤ length self.new.labels }
        ensures enough { OnOk result (nodes ≤ length self.new.labels) }
        ensures laws { HasLaws self.new }
    {
        add_unlinked(&mut self.nodes, nodes)
    }

    /// The first node of a list.
    pub fn first(&self, list: usize) -> Option<usize>
        requires { list < length self.now.lists }
        ensures { result ≡ first_of (nodes_of self.now list) }
    {
        node_at(self.heads[list])
    }

    /// The node after this one in its list.
    pub fn after(&self, node: usize) -> Option<usize>
        requires { (j : ℕ) × (front : List ℕ) × (back : List ℕ) × (nodes_of self.now j ≡ front ++ node ∷ back) }
        ensures { (j : ℕ) (front back : List ℕ) → nodes_of self.now j ≡ front ++ node ∷ back → result ≡ first_of back }
    {
        node_at(self.nodes[node].next)
    }

    /// What is written on a node.
    pub fn label(&self, node: usize) -> u32
        requires { node < length self.now.labels }
        ensures { slice_get self.now.labels node ≡ Some result }
    {
        self.nodes[node].label
    }

    /// Writes on a node.
    pub fn set_label(&mut self, node: usize, label: u32)
        requires { node < length self.old.labels }
        ensures state { self.new ≡ record { labels = slice_set self.old.labels node label; lists = self.old.lists } }
        ensures laws { HasLaws self.new }
    {
        let next = self.nodes[node].next;
        self.nodes[node] = Node { next, label };
    }

    /// Puts a node that is in no list at the head of a list.
    pub fn link(&mut self, list: usize, node: usize)
        requires list { list < length self.old.lists }
        requires node { node < length self.old.labels }
        requires free { (j : ℕ) → Contains (nodes_of self.old j) node → ⊥ }
        ensures count { length self.new.lists ≡ length self.old.lists }
        ensures labels { self.new.labels ≡ self.old.labels }
        ensures here { nodes_of self.new list ≡ node ∷ nodes_of self.old list }
        ensures others { (j : ℕ) → j ≢ list → nodes_of self.new j ≡ nodes_of self.old j }
        ensures laws { HasLaws self.new }
    {
        let first = self.heads[list];
        set_next(&mut self.nodes, node, first);
        self.heads[list] = node as u32 + 1;
    }

    /// Takes a node out of its list, in which this one, if any, is before it.
    pub fn unlink(&mut self, list: usize, before: Option<usize>, node: usize)
        requires list { list < length self.old.lists }
        requires at { (front : List ℕ) × (back : List ℕ) × (nodes_of self.old list ≡ front ++ node ∷ back)
            × (last_of front ≡ before) }
        ensures count { length self.new.lists ≡ length self.old.lists }
        ensures labels { self.new.labels ≡ self.old.labels }
        ensures here { (front back : List ℕ) → nodes_of self.old list ≡ front ++ node ∷ back → nodes_of self.new list
            ≡ front ++ back }
        ensures others { (j : ℕ) → j ≢ list → nodes_of self.new j ≡ nodes_of self.old j }
        ensures free { (j : ℕ) → Contains (nodes_of self.new j) node → ⊥ }
        ensures laws { HasLaws self.new }
    {
        let rest = self.nodes[node].next;
        match before {
            None => self.heads[list] = rest,
            Some(last) => set_next(&mut self.nodes, last, rest),
        }
    }

    /// Empties all lists.
    pub fn clear(&mut self)
        ensures count { length self.new.lists ≡ length self.old.lists }
        ensures labels { self.new.labels ≡ self.old.labels }
        ensures empty { (j : ℕ) → nodes_of self.new j ≡ [] }
        ensures laws { HasLaws self.new }
    {
        write_zeros(&mut self.heads);
    }
}
