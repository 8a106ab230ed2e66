//! The tree.

ghost use Rattle.std.specs.Prelude.{◌≡◌, ◌≤◌, ◌<◌, ◌↔◌, [], ◌∷◌, map, length, is_some, slice_get, IfOk, IfSome, IsTrue, OnOk, OnErr, option_map, option_copied};
ghost use Rattle.std.specs.Option.{option_map_or};
ghost use Rattle.doc_tree.specs.Element.{depth_of, element_of, inclusive_ancestors, is_in, numbers_of, parent_of, position_of, style_of, subtree_end_of, subtree_of};
ghost use Rattle.doc_tree.specs.Children.{first_child_of, next_sibling_of};
ghost use Rattle.doc_tree.specs.Shape.{IsTree, IsWithinLimits};
ghost use Rattle.doc_tree.specs.Change.{empty_document, new_element, with_classes, with_id, with_style, without, IsAdded, IsInserted};
ghost use Rattle.doc_tree.specs.Fault.{Answers, fault_of_add, fault_of_change, fault_of_classes, fault_of_insert};

use crate::add::{add_node, insert_node};
use crate::change::{set_classes_of, set_id_of, set_style_of};
use crate::children::{first_child_in, next_sibling_in};
use crate::element::Element;
use crate::fault::TreeFault;
use crate::limits::{MAX_CLASSES, MAX_STYLE_BYTES};
use crate::nodes::Nodes;
use crate::order::{count_positions, element_in_order, position_in, subtree_end_in};
use crate::remove::remove_nodes;
use crate::slots::{empty_nodes, node_of, slot_of};
use std::alloc::{AllocError, Global};
use std::marker::Model;

/// A document: its elements in tree order, and the numbers used for them so far (DOM, "Trees").
///
/// An edit costs a look-up and constant work; `remove` costs the size of what it removes. Positions are counted by
/// [`Tree::renumber`] in one walk, and cost a look-up until the next `add`, `insert` or `remove`.
#[derive(Drop)]
pub struct Tree {
    alloc: Global,
    nodes: Nodes,
}

impl Model for Tree {
    ghost use Rattle.doc_tree.specs.Element.{Document};

    ghost Value = { Document };

    ghost use Rattle.doc_tree.specs.Marks.{document_of, kept_of, AreMarksOfTree};

    ghost view = { λ t. document_of (kept_of t.nodes) };

    ghost invariant = { λ t. AreMarksOfTree (kept_of t.nodes) };
}

impl Tree {
    /// The empty document.
    pub fn new(alloc: Global) -> Result<Tree, AllocError>
        ensures { IfOk result (λ t. t ≡ empty_document) }
    {
        Ok(Tree {
            alloc,
            nodes: empty_nodes(alloc)?,
        })
    }

    /// Adds element `n` as the last child of the parent; with no parent it is the root.
    ///
    /// The faults come in this order: `UnknownNode` where the parent isn't in the tree, `NodeTaken`
    /// where `n` was used before, `BoundNodes`, `BoundDepth`, `BoundRoot`. `NoMemory` comes only
    /// where there is none of these. A refused add leaves the tree as it was, and `n` free.
    pub fn add(&mut self, n: u32, parent: Option<u32>, tag: &str) -> Result<(), TreeFault>
        ensures fault { Answers (fault_of_add self.old n parent) result }
        ensures ok { OnOk result (IsAdded self.old self.new (new_element n parent tag.now)) }
        ensures err { OnErr result (self.new ≡ self.old) }
    {
        add_node(self.alloc, &mut self.nodes, n, parent, tag)
    }

    /// Adds element `n` directly before the sibling, below the same parent.
    ///
    /// The faults come in the order of [`Tree::add`]: `UnknownNode` where the sibling isn't in the tree, and
    /// `BoundRoot` where it is the root. A refused insert leaves the tree as it was, and `n` free.
    pub fn insert(&mut self, n: u32, sibling: u32, tag: &str) -> Result<(), TreeFault>
        ensures fault { Answers (fault_of_insert self.old n sibling) result }
        ensures ok { OnOk result (IsInserted self.old self.new n sibling tag.now) }
        ensures err { OnErr result (self.new ≡ self.old) }
    {
        insert_node(self.alloc, &mut self.nodes, n, sibling, tag)
    }

    /// Removes element `n` and all below it; answers the removed numbers in tree order. They stay used.
    ///
    /// `UnknownNode` comes where `n` isn't in the tree, and else `NoMemory` may come; both leave the
    /// tree as it was.
    pub fn remove(&mut self, n: u32) -> Result<Vec<u32>, TreeFault>
        ensures fault { Answers (fault_of_change self.old.elements n) result }
        ensures numbers { IfOk result (λ numbers. numbers.items ≡ numbers_of (subtree_of self.old.elements n)) }
        ensures ok { OnOk result (self.new ≡ without self.old n) }
        ensures err { OnErr result (self.new ≡ self.old) }
    {
        remove_nodes(self.alloc, &mut self.nodes, n)
    }

    /// Replaces the id of element `n`; `None` takes it away.
    ///
    /// `UnknownNode` comes where `n` isn't in the tree, and else `NoMemory` may come; both leave the
    /// tree as it was.
    pub fn set_id(&mut self, n: u32, id: Option<&str>) -> Result<(), TreeFault>
        ensures fault { Answers (fault_of_change self.old.elements n) result }
        ensures ok { OnOk result (self.new ≡ with_id self.old n (option_map (λ text. text.now) id.entry)) }
        ensures err { OnErr result (self.new ≡ self.old) }
    {
        set_id_of(self.alloc, &mut self.nodes, n, id)
    }

    /// Replaces the classes of element `n`. A repeated name counts once, and is kept where it came first.
    ///
    /// `UnknownNode` comes where `n` isn't in the tree, then `BoundClasses` where there are more than
    /// [`MAX_CLASSES`](crate::MAX_CLASSES) different names, and else `NoMemory` may come; all leave the
    /// tree as it was.
    pub fn set_class(&mut self, n: u32, names: &[&str]) -> Result<(), TreeFault>
        ensures fault { Answers (fault_of_classes self.old.elements n (map (λ text. text.now) names.now)) result }
        ensures ok { OnOk result (self.new ≡ with_classes self.old n (map (λ text. text.now) names.now)) }
        ensures err { OnErr result (self.new ≡ self.old) }
    {
        set_classes_of(self.alloc, &mut self.nodes, n, names)
    }

    /// Replaces the style text of element `n`.
    ///
    /// `UnknownNode` comes where `n` isn't in the tree, and else `NoMemory` may come; both leave the
    /// tree as it was.
    pub fn set_style(&mut self, n: u32, text: &str) -> Result<(), TreeFault>
        requires { length text.now ≤ MAX_STYLE_BYTES }
        ensures fault { Answers (fault_of_change self.old.elements n) result }
        ensures ok { OnOk result (self.new ≡ with_style self.old n text.now) }
        ensures err { OnErr result (self.new ≡ self.old) }
    {
        set_style_of(self.alloc, &mut self.nodes, n, text)
    }

    /// Counts the positions of all elements in one walk, so that a position costs one look-up until the next edit
    /// that moves elements. Changes nothing that can be seen.
    pub fn renumber(&mut self)
        ensures { self.new ≡ self.old }
    {
        if !self.nodes.fresh {
            count_positions(&mut self.nodes);
        }
    }

    /// How many elements there are.
    pub fn len(&self) -> usize
        ensures value { result ≡ length self.now.elements }
        ensures tree { IsTree self.now }
        ensures limits { IsWithinLimits self.now }
    {
        self.nodes.len
    }

    /// Whether there is no element.
    pub fn is_empty(&self) -> bool
        ensures { IsTrue result ↔ (self.now.elements ≡ []) }
    {
        self.nodes.len == 0
    }

    /// Whether element `n` is in the tree.
    pub fn contains(&self, n: u32) -> bool
        ensures { result ≡ is_in n self.now.elements }
    {
        slot_of(&self.nodes, n).is_some()
    }

    /// Element `n`; `None` where it isn't in the tree. Its parent, where it has one, is in the tree, and one look-up
    /// more; so its ancestors are had by a look-up each.
    pub fn element(&self, n: u32) -> Option<&Element>
        ensures value { option_copied result ≡ element_of n self.now.elements }
        ensures found { IsTrue (is_some result) ↔ IsTrue (is_in n self.now.elements) }
        ensures number { IfSome result (λ e. e.now.number ≡ n) }
        ensures parent { IfSome result (λ e. IfSome e.now.parent (λ p. IsTrue (is_in p self.now.elements))) }
        ensures ancestors { IfSome result (λ e. inclusive_ancestors self.now.elements n ≡ e.now ∷ option_map_or (inclusive_ancestors self.now.elements) e.now.parent []) }
        ensures style_bytes { IfSome result (λ e. length e.now.style ≤ MAX_STYLE_BYTES) }
        ensures classes { IfSome result (λ e. length e.now.classes ≤ MAX_CLASSES) }
    {
        match node_of(&self.nodes, n) {
            None => None,
            Some(node) => Some(&node.element),
        }
    }

    /// The number of the parent of element `n`; `None` where `n` is the root, or isn't in the tree.
    pub fn parent(&self, n: u32) -> Option<u32>
        ensures { result ≡ parent_of n self.now.elements }
    {
        match node_of(&self.nodes, n) {
            None => None,
            Some(node) => node.element.parent(),
        }
    }

    /// The number of the first child of element `n`; `None` where it has no child, or isn't in the tree (DOM, "first
    /// child"). A look-up and constant work, whatever was edited before.
    pub fn first_child(&self, n: u32) -> Option<u32>
        ensures { result ≡ first_child_of n self.now.elements }
    {
        first_child_in(&self.nodes, n)
    }

    /// The number of the next sibling of element `n`; `None` where it is the last child or the root, or isn't in the
    /// tree (DOM, "next sibling"). A look-up and constant work: with [`Tree::first_child`] it goes over all children.
    pub fn next_sibling(&self, n: u32) -> Option<u32>
        ensures { result ≡ next_sibling_of n self.now.elements }
    {
        next_sibling_in(&self.nodes, n)
    }

    /// How deep element `n` lies, 1 for the root; `None` where it isn't in the tree.
    pub fn depth(&self, n: u32) -> Option<u32>
        ensures { result ≡ option_map (λ _. depth_of self.now.elements n) (element_of n self.now.elements) }
    {
        match node_of(&self.nodes, n) {
            None => None,
            Some(node) => Some(node.depth),
        }
    }

    /// The style text of element `n`; `None` where it isn't in the tree.
    pub fn style(&self, n: u32) -> Option<&str>
        ensures value { option_map (λ text. text.now) result ≡ style_of n self.now }
        ensures bytes { IfSome result (λ text. length text.now ≤ MAX_STYLE_BYTES) }
    {
        match self.element(n) {
            None => None,
            Some(element) => Some(element.style()),
        }
    }

    /// The place of element `n` in tree order, from 0; `None` where it isn't in the tree. One look-up after
    /// [`Tree::renumber`], else a walk.
    pub fn position(&self, n: u32) -> Option<u32>
        ensures value { result ≡ position_of n self.now }
        ensures small { IfSome result (λ at. at < length self.now.elements) }
    {
        position_in(&self.nodes, n)
    }

    /// The place after the subtree of element `n` in tree order: its next sibling, if it has one, stands there.
    /// `None` where `n` isn't in the tree. One look-up after [`Tree::renumber`], else a walk.
    pub fn subtree_end(&self, n: u32) -> Option<u32>
        ensures { result ≡ subtree_end_of n self.now }
    {
        subtree_end_in(&self.nodes, n)
    }

    /// The element at this place in tree order, from 0; `None` where there are no more. Constant work after
    /// [`Tree::renumber`], else a walk: `for at in 0..tree.len()` goes over all elements.
    pub fn at(&self, place: usize) -> Option<&Element>
        ensures { option_copied result ≡ slice_get self.now.elements place }
    {
        element_in_order(&self.nodes, place)
    }
}
