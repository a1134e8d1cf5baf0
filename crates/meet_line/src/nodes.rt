//! The nodes of a roll, and the links between them. A link is a word: four of them and a ticket are no longer than a
//! cache line.

ghost use Rattle.std.specs.Prelude.{◌≡◌, ◌+◌, ◌<◌, ◌^◌, Option, Some, None};
ghost use Rattle.meet_line.specs.Nodes.{with_node, with_newest, put_end};

use slab::Slab;
use std::marker::Model;

/// A key, or none, in one word. A contract sees it as that.
#[derive(Clone, Copy)]
pub(crate) struct Link {
    /// One more than the key, or 0 where there is none.
    code: usize,
}

impl Model for Link {
    ghost use Rattle.std.specs.Prelude.{ℕ, Option};
    ghost use Rattle.meet_line.specs.Links.{key_of, code_of};

    ghost Value = { Option ℕ };

    ghost view = { λ link. key_of link.code };

    ghost inverse = { λ key. record { code = code_of key } };
}

impl Link {
    /// None.
    pub(crate) fn none() -> Link
        ensures { result ≡ None }
    {
        Link { code: 0 }
    }

    /// This key, which isn't the greatest number that there is.
    #[inline(always)]
    pub(crate) fn to(key: usize) -> Link
        requires { key + 1 < 2 ^ 64 }
        ensures { result ≡ Some key }
    {
        Link { code: key + 1 }
    }

    /// The key, if there is one.
    #[inline(always)]
    pub(crate) fn key(self) -> Option<usize>
        ensures { result ≡ self }
    {
        if self.code == 0 {
            None
        } else {
            Some(self.code - 1)
        }
    }
}

/// A ticket of a roll, and the keys of its neighbours.
#[derive(Clone, Copy)]
pub(crate) struct Node {
    pub(crate) ticket: u64,
    /// Who came just before it.
    pub(crate) before: Link,
    /// Who came just after it.
    pub(crate) after: Link,
    /// Who came before it in its bucket.
    pub(crate) older: Link,
    /// Who came after it in its bucket.
    pub(crate) newer: Link,
}

/// Behind the node under `at`, or first where that is none, comes `to`.
pub(crate) fn link_after(nodes: &mut Slab<Node>, first: &mut Link, at: Link, to: Link)
    ensures nodes { nodes.new ≡ with_node nodes.old at (λ n. record n { after = to }) }
    ensures first { first.new ≡ put_end first.old at to }
{
    match at.key() {
        None => *first = to,
        Some(key) => {
            if let Some(node) = nodes.get_mut(key) {
                node.after = to;
            }
        }
    }
}

/// Before the node under `at`, or last where that is none, comes `to`.
pub(crate) fn link_before(nodes: &mut Slab<Node>, last: &mut Link, at: Link, to: Link)
    ensures nodes { nodes.new ≡ with_node nodes.old at (λ n. record n { before = to }) }
    ensures last { last.new ≡ put_end last.old at to }
{
    match at.key() {
        None => *last = to,
        Some(key) => {
            if let Some(node) = nodes.get_mut(key) {
                node.before = to;
            }
        }
    }
}

/// In a bucket, before the node under `at`, or newest where that is none, comes `to`.
pub(crate) fn link_older(nodes: &mut Slab<Node>, newest: &mut Link, at: Link, to: Link)
    ensures nodes { nodes.new ≡ with_node nodes.old at (λ n. record n { older = to }) }
    ensures newest { newest.new ≡ put_end newest.old at to }
{
    match at.key() {
        None => *newest = to,
        Some(key) => {
            if let Some(node) = nodes.get_mut(key) {
                node.older = to;
            }
        }
    }
}

/// In a bucket, behind the node under `at`, if that is one, comes `to`.
pub(crate) fn link_newer(nodes: &mut Slab<Node>, at: Link, to: Link)
    ensures nodes { nodes.new ≡ with_node nodes.old at (λ n. record n { newer = to }) }
{
    if let Some(key) = at.key() {
        if let Some(node) = nodes.get_mut(key) {
            node.newer = to;
        }
    }
}

/// The node under `key`, to which `own` links, is the newest of its bucket, behind the one that was.
pub(crate) fn chain(nodes: &mut Slab<Node>, newest: &mut Link, key: usize, own: Link)
    requires { own ≡ Some key }
    ensures nodes { nodes.new ≡ with_newest nodes.old newest.old key }
    ensures newest { newest.new ≡ Some key }
{
    let older = *newest;
    if let Some(node) = nodes.get_mut(key) {
        node.older = older;
        node.newer = Link::none();
    }
    link_newer(nodes, older, own);
    *newest = own;
}
