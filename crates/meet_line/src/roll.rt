//! The tickets of a line in order of arrival, each under a key, and a table by which one is found.

ghost use Rattle.std.specs.Prelude.{◌≡◌, ◌≢◌, ℕ, ◌+◌, ◌*◌, ◌<◌, ◌≤◌, ◌⊎◌, [], ◌∷◌, ◌++◌, List, length, All};
ghost use Rattle.std.specs.Prelude.{Some, None, OnOk, OnErr, replicate, slice_index_or, slice_set};
ghost use Rattle.slab.specs.Slab.{ContainsKey, slab_len};
ghost use Rattle.meet_line.specs.Nodes.{field_at, with_newest};
ghost use Rattle.meet_line.specs.Rolled.{Placed, StandsAt, IsFound, IsLastKey, IsLeft, first_key, keys_of};
ghost use Rattle.meet_line.specs.Rolled.{bucket_at, AreChained, IsLine, IsRechained, IsTableSize};

use crate::bucket_table::{bucket_of, doubled, empty_out};
use crate::nodes::{Link, Node, chain, link_after, link_before, link_newer, link_older};
use slab::Slab;
use std::alloc::{AllocError, Global};
use std::marker::Model;

/// The tickets of a line, each under a key. Only `reserve` allocates.
#[derive(Drop)]
pub(crate) struct Roll {
    table: Vec<Link>,
    nodes: Slab<Node>,
    first: Link,
    last: Link,
}

impl Model for Roll {
    ghost use Rattle.meet_line.specs.Rolled.{Rolled};

    ghost Value = { Rolled };

    ghost use Rattle.meet_line.specs.Rolled.{rolled, IsRoll, keys_of};

    ghost view = { λ r. rolled r.nodes r.first r.table.items };

    ghost invariant = { λ r. IsRoll r.nodes r.first r.last r.table.items (keys_of r.nodes r.first) };
}

/// What a look for a ticket came to.
#[derive(Drop)]
pub(crate) struct Found {
    /// The key of its place, if it has one.
    pub(crate) key: Option<usize>,
    /// How many nodes were looked at.
    pub(crate) looked: usize,
}

/// The node of this key, to which `own` links, joins its bucket's chain; the key after it in the line, if there is one.
fn chain_next(nodes: &mut Slab<Node>, table: &mut Vec<Link>, key: usize, own: Link) -> Link
    requires own { own ≡ Some key }
    requires there { ContainsKey nodes.old key }
    requires some { 0 < length table.old.items }
    requires size { IsTableSize (length table.old.items) }
    ensures nodes { let b = bucket_at nodes.old (length table.old.items) key in
        nodes.new ≡ with_newest nodes.old (slice_index_or table.old.items b None) key }
    ensures table { let b = bucket_at nodes.old (length table.old.items) key in
        table.new.items ≡ slice_set table.old.items b (Some key) }
    ensures next { result ≡ field_at (λ n. n.after) None nodes.old key }
{
    let node = nodes[key];
    let bucket = bucket_of(node.ticket, table.len());
    chain(nodes, &mut table[bucket], key, own);
    node.after
}

/// Slots for keys up to this number, the new ones empty.
fn pad<X>(slots: &mut Vec<Option<X>>, width: usize) -> Result<(), AllocError>
    ensures same { (k : ℕ) → slice_index_or slots.new.items k None ≡ slice_index_or slots.old.items k None }
    ensures longer { length slots.old.items ≤ length slots.new.items }
    ensures wide { OnOk result (width ≤ length slots.new.items) }
{
    let len = slots.len();
    if len < width {
        slots.reserve(width - len)?;
        for _key in len..width {
            slots.push_reserved(None);
        }
    }
    Ok(())
}

/// Makes room for this many nodes more, and slots for their keys: in a copy of the nodes, so that all stays as it was
/// where there is no memory for the slots.
fn widen_nodes<X>(
    nodes: &mut Slab<Node>,
    slots: &mut Vec<Option<X>>,
    count: usize,
) -> Result<(), AllocError>
    ensures nodes { nodes.new ≡ record nodes.old { capacity = nodes.new.capacity } }
    ensures room { OnOk result (slab_len nodes.new + count ≤ nodes.new.capacity) }
    ensures wider { nodes.old.capacity ≤ nodes.new.capacity }
    ensures slots { (k : ℕ) → slice_index_or slots.new.items k None ≡ slice_index_or slots.old.items k None }
    ensures fits { nodes.old.capacity ≤ length slots.old.items → nodes.new.capacity ≤ length slots.new.items }
{
    if nodes.capacity() - nodes.len() >= count {
        return Ok(());
    }
    let mut wider = nodes.clone()?;
    wider.reserve(count)?;
    pad(slots, wider.capacity())?;
    *nodes = wider;
    Ok(())
}

/// The nodes of a line join the chains of a table that is empty, in order of arrival.
fn rechain(nodes: &mut Slab<Node>, first: Link, table: &mut Vec<Link>)
    requires line { IsLine nodes.old first (keys_of nodes.old first) }
    requires empty { table.old.items ≡ replicate (length table.old.items) None }
    requires some { 0 < length table.old.items }
    requires size { IsTableSize (length table.old.items) }
    ensures chained { AreChained nodes.new table.new.items (length table.old.items) (keys_of nodes.old first) }
    ensures nodes { IsRechained nodes.old nodes.new }
    ensures size { length table.new.items ≡ length table.old.items }
{
    let mut at = first;
    for _step in 0..nodes.len() {
        if let Some(key) = at.key() {
            at = chain_next(nodes, table, key, at);
        }
    }
}

impl Roll {
    /// A roll without a ticket, a key or a bucket.
    pub(crate) fn new(alloc: Global) -> Roll
        ensures places { result.places ≡ [] }
        ensures width { result.width ≡ 0 }
        ensures buckets { result.buckets ≡ 0 }
    {
        Roll {
            nodes: Slab::new(alloc),
            first: Link::none(),
            last: Link::none(),
            table: Vec::new(alloc),
        }
    }

    /// How many tickets there are.
    pub(crate) fn len(&self) -> usize
        ensures { result ≡ length self.now.places }
    {
        self.nodes.len()
    }

    /// How many buckets there are.
    pub(crate) fn buckets(&self) -> usize
        ensures count { result ≡ self.now.buckets }
        ensures size { IsTableSize result }
    {
        self.table.len()
    }

    /// The number below which all keys are.
    pub(crate) fn width(&self) -> usize
        ensures { result ≡ self.now.width }
    {
        self.nodes.capacity()
    }

    /// How many tickets more have a key and a bucket.
    pub(crate) fn spare(&self) -> usize
        requires width { length self.now.places ≤ self.now.width }
        requires buckets { length self.now.places ≤ self.now.buckets }
        ensures keys { length self.now.places + result ≤ self.now.width }
        ensures table { length self.now.places + result ≤ self.now.buckets }
        ensures enough { (count : ℕ) → length self.now.places + count ≤ self.now.width
            → length self.now.places + count ≤ self.now.buckets → count ≤ result }
    {
        self.width().min(self.buckets()) - self.len()
    }

    /// The key of the first ticket, if there is one.
    pub(crate) fn first(&self) -> Option<usize>
        ensures { result ≡ first_key self.now.places }
    {
        let _ = &self.nodes;
        self.first.key()
    }

    /// The key of the last ticket, if there is one.
    pub(crate) fn last(&self) -> Option<usize>
        ensures { IsLastKey self.now.places result }
    {
        let _ = &self.nodes;
        self.last.key()
    }

    /// The key of the ticket behind the one under this key, if there is one.
    pub(crate) fn after(&self, key: usize) -> Option<usize>
        ensures { (front : List Placed) (place : Placed) (rest : List Placed) → self.now.places ≡ front ++ place ∷ rest
            → place.key ≡ key → result ≡ first_key rest }
    {
        self.nodes.get(key)?.after.key()
    }

    /// Looks for a ticket in its bucket, from the newest on.
    pub(crate) fn find(&self, ticket: u64) -> Found
        ensures { IsFound self.now.places self.now.buckets ticket result.key result.looked }
    {
        if self.table.is_empty() {
            return Found {
                key: None,
                looked: 0,
            };
        }
        let mut at = self.table[bucket_of(ticket, self.table.len())];
        for looked in 0..self.nodes.len() {
            let Some(key) = at.key() else {
                return Found { key: None, looked };
            };
            let node = &self.nodes[key];
            if node.ticket == ticket {
                return Found {
                    key: Some(key),
                    looked: looked + 1,
                };
            }
            at = node.older;
        }
        Found {
            key: None,
            looked: self.nodes.len(),
        }
    }

    /// Makes room for this many tickets more, and as many buckets as there may then be tickets, at the least; and makes
    /// the slots, which are given, as many as there may be keys, if they were.
    pub(crate) fn reserve<X>(
        &mut self,
        slots: &mut Vec<Option<X>>,
        count: usize,
    ) -> Result<(), AllocError>
        ensures places { self.new.places ≡ self.old.places }
        ensures wider { self.old.width ≤ self.new.width }
        ensures more { self.old.buckets ≤ self.new.buckets }
        ensures keys { OnOk result (length self.old.places + count ≤ self.new.width) }
        ensures table { OnOk result (length self.old.places + count ≤ self.new.buckets) }
        ensures few { (self.new.buckets ≡ self.old.buckets)
            ⊎ (self.new.buckets < 2 * (length self.old.places + count)) }
        ensures failed { OnErr result (self.new.buckets ≡ self.old.buckets) }
        ensures slots { (k : ℕ) → slice_index_or slots.new.items k None ≡ slice_index_or slots.old.items k None }
        ensures fits { self.old.width ≤ length slots.old.items → self.new.width ≤ length slots.new.items }
    {
        widen_nodes(&mut self.nodes, slots, count)?;
        let needed = self.nodes.len().checked_add(count).ok_or(AllocError)?;
        if self.table.len() < needed {
            self.widen(needed)?;
        }
        Ok(())
    }

    /// Makes a table of so many buckets or more, and chains all nodes anew.
    fn widen(&mut self, needed: usize) -> Result<(), AllocError>
        requires { self.old.buckets < needed }
        ensures places { self.new.places ≡ self.old.places }
        ensures width { self.new.width ≡ self.old.width }
        ensures more { self.old.buckets ≤ self.new.buckets }
        ensures enough { OnOk result (needed ≤ self.new.buckets) }
        ensures few { (self.new.buckets ≡ self.old.buckets) ⊎ (self.new.buckets < 2 * needed) }
        ensures failed { OnErr result (self.new.buckets ≡ self.old.buckets) }
    {
        let size = doubled(self.table.len(), needed).ok_or(AllocError)?;
        empty_out(&mut self.table, size)?;
        rechain(&mut self.nodes, self.first, &mut self.table);
        Ok(())
    }

    /// A ticket comes to the end; its key.
    #[inline(always)]
    pub(crate) fn push_back(&mut self, ticket: u64) -> usize
        requires key { length self.old.places < self.old.width }
        requires bucket { 0 < self.old.buckets }
        ensures places { self.new.places ≡ self.old.places ++ record { key = result; ticket = ticket } ∷ [] }
        ensures fresh { All (λ p. p.key ≢ result) self.old.places }
        ensures within { result < self.new.width }
        ensures width { self.new.width ≡ self.old.width }
        ensures buckets { self.new.buckets ≡ self.old.buckets }
    {
        let bucket = bucket_of(ticket, self.table.len());
        let (last, newest) = (self.last, self.table[bucket]);
        let key = self.nodes.insert_reserved(Node {
            ticket,
            before: last,
            after: Link::none(),
            older: newest,
            newer: Link::none(),
        });
        let _below = self.nodes.capacity();
        let own = Link::to(key);
        link_after(&mut self.nodes, &mut self.first, last, own);
        self.last = own;
        link_newer(&mut self.nodes, newest, own);
        self.table[bucket] = own;
        key
    }

    /// The ticket under this key leaves.
    #[inline(always)]
    pub(crate) fn remove(&mut self, key: usize)
        requires { StandsAt self.old.places key }
        ensures places { IsLeft self.old.places self.new.places key }
        ensures width { self.new.width ≡ self.old.width }
        ensures buckets { self.new.buckets ≡ self.old.buckets }
    {
        let node = self.nodes[key];
        let bucket = bucket_of(node.ticket, self.table.len());
        link_after(&mut self.nodes, &mut self.first, node.before, node.after);
        link_before(&mut self.nodes, &mut self.last, node.after, node.before);
        link_newer(&mut self.nodes, node.older, node.newer);
        link_older(
            &mut self.nodes,
            &mut self.table[bucket],
            node.newer,
            node.older,
        );
        self.nodes.remove(key);
    }
}
