//! A trie of rows with hashed edges: a row is found by its elements one after another, without memory and whatever its
//! length.
ghost use Rattle.std.specs.Prelude.{◌≡◌, ◌<◌, ◌||◌, ◌++◌, ◌∷◌, None, Some, [], List, ℕ, length, reverse, nat_lt, true};
ghost use Rattle.std.specs.Prelude.{map, IsTrue, IsSome, All, OnOk, OnErr, IfOk};
ghost use Rattle.indexmap.specs.IndexMap.{set_value_at};
ghost use Rattle.row_tries.specs.Lent.{lent_view};
ghost use Rattle.row_tries.specs.Words.{words_in};
ghost use Rattle.row_tries.specs.Rows.{Grows, child_of, child_by, has_label, is_symbol, is_tree, label_of};
ghost use Rattle.row_tries.specs.Rows.{mark_at, node_of};
ghost use Rattle.row_tries.specs.Values.{IsValueOf, value_label};
ghost use Rattle.kb_logic.specs.Values.{value_view};

use crate::lent::LentElem;
use crate::near::Near;
use crate::truths::Truth;
use crate::words::Words;
use indexmap::IndexMap;
use indexmap::map::Entry;
use kb_logic::values::Value;
use kb_logic::{Elem, Memory};
use std::alloc::Global;

/// What leads from one node to the next: a symbol from the root, then elements.
#[derive(Clone, Copy, PartialEq, Eq, Hash)]
pub enum Label {
    Symbol(u32),
    Word(usize),
    Number(i64),
}

/// The way to a node from the node before it.
#[derive(Clone, Copy, PartialEq, Eq, Hash)]
pub struct Edge {
    pub parent: usize,
    pub label: Label,
}

/// What is known of a row: whether it is that of a true or a false atom, and the value of a function
/// where the row has its arguments.
#[derive(Clone, Copy)]
pub struct Mark {
    pub known: Truth,
    pub value: Option<Label>,
}

impl Mark {
    pub const BLANK: Mark = Mark {
        known: Truth::Unknown,
        value: None,
    };
}

/// Rows by their symbols and elements. Each node of the trie stands for a prefix of a row.
#[derive(Drop)]
pub struct Rows {
    pub words: Words,
    pub nodes: IndexMap<Edge, Mark>,
    near: Near,
    ghost tree: { is_tree nodes.entries ≡ true },
}

impl Rows {
    /// No rows, for elements with these names.
    pub fn new(alloc: Global, words: Words) -> Rows
        ensures words { result.words ≡ words }
        ensures nodes { result.nodes.entries ≡ [] }
    {
        Rows {
            words,
            nodes: IndexMap::new(alloc),
            near: Near::new(),
        }
    }

    /// A copy of the rows, for elements with these names.
    pub fn with_words(&self, words: Words) -> Result<Rows, Memory>
        ensures words { IfOk result (λ r. r.words ≡ words) }
        ensures nodes { IfOk result (λ r. r.nodes.entries ≡ self.now.nodes.entries) }
    {
        Ok(Rows {
            words,
            nodes: self.nodes.clone()?,
            near: Near::new(),
        })
    }

    pub fn label(&self, elem: &Elem) -> Option<Label>
        ensures { result ≡ label_of (words_in self.now.words) elem.now }
    {
        match elem {
            Elem::Named(name) => match self.words.number(name.text()) {
                Some(number) => Some(Label::Word(number)),
                None => None,
            },
            Elem::Num(n) => Some(Label::Number(*n)),
        }
    }

    fn child(&self, parent: usize, label: Label) -> Option<usize>
        ensures { result ≡ child_of self.now.nodes.entries parent label }
    {
        self.nodes.get_index_of(&Edge { parent, label })
    }

    /// The node of a symbol's empty row.
    pub fn root(&self, symbol: u32) -> Option<usize>
        ensures { result ≡ node_of (words_in self.now.words) self.now.nodes.entries symbol [] }
    {
        self.child(0, Label::Symbol(symbol))
    }

    /// The node of the row with one more element.
    pub fn step(&self, node: Option<usize>, elem: &Elem) -> Option<usize>
        ensures { result ≡ child_by self.now.nodes.entries node (label_of (words_in self.now.words) elem.now) }
    {
        match node {
            None => None,
            Some(parent) => match self.label(elem) {
                None => None,
                Some(label) => self.child(parent, label),
            },
        }
    }

    /// The label that stands for a value.
    pub fn value_label(&self, value: Value<'_>) -> Option<Label>
        ensures { result ≡ value_label (words_in self.now.words) (value_view value.entry) }
    {
        match value {
            Value::Named(word) => match self.words.number(word) {
                Some(number) => Some(Label::Word(number)),
                None => None,
            },
            Value::Num(n) => Some(Label::Number(n)),
            _ => None,
        }
    }

    /// The value that a label stands for.
    pub fn value_of(&self, label: Label) -> Option<Value<'_>>
        ensures { IsValueOf (words_in self.now.words) label result }
    {
        match label {
            Label::Symbol(_) => None,
            Label::Number(n) => Some(Value::Num(n)),
            Label::Word(number) => match self.words.word(number) {
                None => None,
                Some(word) => {
                    if self.words.number(word) == Some(number) {
                        Some(Value::Named(word))
                    } else {
                        None
                    }
                }
            },
        }
    }

    /// The node of the row with one more value.
    pub fn step_value(&self, node: Option<usize>, value: Value<'_>) -> Option<usize>
        ensures { result ≡ child_by self.now.nodes.entries node (value_label (words_in self.now.words)
            (value_view value.entry)) }
    {
        match (node, self.value_label(value)) {
            (Some(parent), Some(label)) => self.child(parent, label),
            _ => None,
        }
    }

    /// The node of a symbol's row.
    pub fn find(&self, symbol: u32, args: &[Elem]) -> Option<usize>
        ensures { result ≡ node_of (words_in self.now.words) self.now.nodes.entries symbol (reverse args.now) }
    {
        let mut node = self.root(symbol);
        for elem in args {
            node = self.step(node, elem);
        }
        node
    }

    pub fn mark(&self, node: Option<usize>) -> Mark
        ensures { result ≡ mark_at self.now.nodes.entries node }
    {
        match node {
            Some(node) => match self.nodes.get_index(node) {
                Some((_, mark)) => *mark,
                None => Mark::BLANK,
            },
            None => Mark::BLANK,
        }
    }

    /// The node to which the edge leads, which is made where there is none.
    ///
    /// The edge is hashed once: its entry keeps the hash where the edge is new.
    fn child_or_new(&mut self, parent: usize, label: Label) -> Result<usize, Memory>
        requires { (is_symbol label || nat_lt parent (length self.old.nodes.entries)) ≡ true }
        ensures child { IfOk result (λ n. child_of self.new.nodes.entries parent label ≡ Some n) }
        ensures grows { Grows self.old.nodes.entries self.new.nodes.entries }
        ensures words { self.new.words ≡ self.old.words }
    {
        let next = self.nodes.len();
        match self.nodes.entry(Edge { parent, label })? {
            Entry::Occupied(entry) => Ok(entry.index()),
            Entry::Vacant(entry) => {
                entry.insert(Mark::BLANK);
                Ok(next)
            }
        }
    }

    /// The node of a symbol's row, which is made where there is none. Its elements have labels.
    pub fn reach(&mut self, symbol: u32, args: &[Elem]) -> Result<usize, Memory>
        requires { All (λ x. IsTrue (has_label (words_in self.old.words) x)) args.now }
        ensures node { IfOk result (λ n. node_of (words_in self.new.words) self.new.nodes.entries symbol
            (reverse args.now) ≡ Some n) }
        ensures grows { Grows self.old.nodes.entries self.new.nodes.entries }
        ensures words { self.new.words ≡ self.old.words }
    {
        let mut node = self.child_or_new(0, Label::Symbol(symbol))?;
        for elem in args {
            node = self.reach_child(node, elem)?;
        }
        Ok(node)
    }

    /// The node of the row with one more element, which is made where there is none.
    pub fn reach_child(&mut self, node: usize, elem: &Elem) -> Result<usize, Memory>
        requires parent { node < length self.old.nodes.entries }
        requires label { IsTrue (has_label (words_in self.old.words) elem.now) }
        ensures child { IfOk result (λ n. child_by self.new.nodes.entries (Some node)
            (label_of (words_in self.new.words) elem.now) ≡ Some n) }
        ensures grows { Grows self.old.nodes.entries self.new.nodes.entries }
        ensures words { self.new.words ≡ self.old.words }
    {
        match self.label(elem) {
            Some(label) => self.child_or_new(node, label),
            None => unreachable!(),
        }
    }

    /// The label of an element that is lent.
    pub fn lent_label(&self, elem: LentElem<'_>) -> Option<Label>
        ensures { result ≡ label_of (words_in self.now.words) (lent_view elem.entry) }
    {
        match elem {
            LentElem::Named(name) => match self.words.number(name) {
                Some(number) => Some(Label::Word(number)),
                None => None,
            },
            LentElem::Num(n) => Some(Label::Number(n)),
        }
    }

    /// As `step`, of an element that is lent.
    pub fn lent_step(&self, node: Option<usize>, elem: LentElem<'_>) -> Option<usize>
        ensures { result ≡ child_by self.now.nodes.entries node (label_of (words_in self.now.words)
            (lent_view elem.entry)) }
    {
        match node {
            None => None,
            Some(parent) => match self.lent_label(elem) {
                None => None,
                Some(label) => self.child(parent, label),
            },
        }
    }

    /// Whether the edge leads to the node.
    fn is_child(&self, parent: usize, label: Label, node: usize) -> bool
        ensures { IsTrue result → child_of self.now.nodes.entries parent label ≡ Some node }
    {
        // Says that no edge stands twice.
        let _count = self.nodes.len();
        match self.nodes.get_index(node) {
            Some((edge, _)) => Edge { parent, label } == *edge,
            None => false,
        }
    }

    /// The node of a symbol's empty row, which is made where there is none.
    ///
    /// The root of the row before is compared before one is sought, since most rows have the same symbol.
    fn reach_root(&mut self, symbol: u32) -> Result<usize, Memory>
        ensures node { IfOk result (λ n. node_of (words_in self.new.words) self.new.nodes.entries symbol [] ≡ Some n) }
        ensures grows { Grows self.old.nodes.entries self.new.nodes.entries }
        ensures words { self.new.words ≡ self.old.words }
    {
        let near = self.near.root;
        if self.is_child(0, Label::Symbol(symbol), near) {
            return Ok(near);
        }
        let node = self.child_or_new(0, Label::Symbol(symbol))?;
        self.near.root = node;
        Ok(node)
    }

    /// As `reach`, of elements that are lent.
    pub fn reach_lent(&mut self, symbol: u32, args: &[LentElem<'_>]) -> Result<usize, Memory>
        requires { All (λ x. IsTrue (has_label (words_in self.old.words) (lent_view x))) args.now }
        ensures node { IfOk result (λ n. node_of (words_in self.new.words) self.new.nodes.entries symbol
            (reverse (map lent_view args.now)) ≡ Some n) }
        ensures grows { Grows self.old.nodes.entries self.new.nodes.entries }
        ensures words { self.new.words ≡ self.old.words }
    {
        let mut node = self.reach_root(symbol)?;
        let mut column: usize = 0;
        for elem in args {
            node = self.reach_near_child(node, *elem, column)?;
            column = column.saturating_add(1);
        }
        Ok(node)
    }

    /// As `lent_label`, of an element in this column, whose word is first compared with that of the row before.
    fn near_label(&mut self, elem: LentElem<'_>, column: usize) -> Option<Label>
        ensures label { result ≡ label_of (words_in self.old.words) (lent_view elem.entry) }
        ensures nodes { self.new.nodes.entries ≡ self.old.nodes.entries }
        ensures words { self.new.words ≡ self.old.words }
    {
        match elem {
            LentElem::Named(name) => match self.words.number_near(name, self.near.word(column)) {
                Some(number) => {
                    self.near.note_word(column, number);
                    Some(Label::Word(number))
                }
                None => None,
            },
            LentElem::Num(n) => Some(Label::Number(n)),
        }
    }

    /// As `reach_lent_child`, of an element in this column.
    fn reach_near_child(
        &mut self,
        node: usize,
        elem: LentElem<'_>,
        column: usize,
    ) -> Result<usize, Memory>
        requires parent { node < length self.old.nodes.entries }
        requires label { IsTrue (has_label (words_in self.old.words) (lent_view elem)) }
        ensures child { IfOk result (λ n. child_by self.new.nodes.entries (Some node)
            (label_of (words_in self.new.words) (lent_view elem.entry)) ≡ Some n) }
        ensures grows { Grows self.old.nodes.entries self.new.nodes.entries }
        ensures words { self.new.words ≡ self.old.words }
    {
        match self.near_label(elem, column) {
            Some(label) => self.child_or_new(node, label),
            None => unreachable!(),
        }
    }

    /// As `reach_child`, of an element that is lent.
    pub fn reach_lent_child(&mut self, node: usize, elem: LentElem<'_>) -> Result<usize, Memory>
        requires parent { node < length self.old.nodes.entries }
        requires label { IsTrue (has_label (words_in self.old.words) (lent_view elem)) }
        ensures child { IfOk result (λ n. child_by self.new.nodes.entries (Some node)
            (label_of (words_in self.new.words) (lent_view elem.entry)) ≡ Some n) }
        ensures grows { Grows self.old.nodes.entries self.new.nodes.entries }
        ensures words { self.new.words ≡ self.old.words }
    {
        match self.lent_label(elem) {
            Some(label) => self.child_or_new(node, label),
            None => unreachable!(),
        }
    }

    pub fn set_mark(&mut self, node: usize, mark: Mark)
        requires { node < length self.old.nodes.entries }
        ensures nodes { self.new.nodes.entries ≡ set_value_at self.old.nodes.entries node mark }
        ensures words { self.new.words ≡ self.old.words }
    {
        if let Some(place) = self.nodes.get_index_mut(node) {
            *place = mark;
        }
    }
}
