//! The commits that were looked up, with their marks, as numbered nodes.
ghost use Rattle.std.specs.Prelude.{◌≡◌, ◌≤◌, ◌<◌, ◌⊎◌, ◌↔◌, IfOk, IfErr, IfSome, IfNone, OnOk, OnErr, option_map, IsSome, IsTrue, unwrap_or, [], ◌∷◌, ◌++◌, length, Some, None, map, take, drop, ◌-◌};
ghost use Rattle.std.specs.FinMap as finite;
ghost use Rattle.gixp_graph.specs.declared.objects.ObjectError.TheVariants.{Memory};
ghost use Rattle.gixp_hash.specs.Failures.{HasRisen};
ghost use Rattle.gixp_graph.specs.Asked.{AsksWhere};
ghost use Rattle.gixp_graph.specs.Refusals.{ErrorIsRefusal};
ghost use Rattle.gixp_graph.specs.GraphData.{shown, graph_of, found_in, looked_up, flagged, parents_in};
ghost use Rattle.gixp_graph.specs.Table.{id_at, ids_at, AllNamed, KeepsNumbers};
ghost use Rattle.gixp_graph.specs.Visited.{IsOneToOne};
ghost use Rattle.gixp_graph.specs.Node.{ids_of, parent_numbers_of, IsInRange, blank};
ghost use Rattle.gixp_graph.specs.Slots.{IsNumbered};

use crate::flags::Flags;
use crate::numbers::Numbers;
use crate::objects::{ObjectError, Objects};
use bitflags::Flags as _;
use gixp_hash::ObjectId;
use std::alloc::{AllocError, Global};
use std::marker::Model;

/// A commit, or the name of one that wasn't looked up.
#[derive(Clone, Copy)]
pub(crate) struct Node {
    pub id: ObjectId,
    flags: Flags,
    is_found: bool,
    time: i64,
    first: usize,
    end: usize,
}

// Returns the number of an id. An id without a number gets the next one.
fn number_of(
    nodes: &mut Vec<Node>,
    numbers: &mut Numbers,
    id: &ObjectId,
) -> Result<usize, AllocError>
    requires once { IsOneToOne (ids_of nodes.old.items) }
    requires numbered { IsNumbered (ids_of nodes.old.items) numbers.old }
    ensures once { IsOneToOne (ids_of nodes.new.items) }
    ensures numbered { IsNumbered (ids_of nodes.new.items) numbers.new }
    ensures named { IfOk result (λ n. (n < length (ids_of nodes.new.items)) × (id_at (ids_of nodes.new.items) n ≡ id.now)) }
    ensures grown { (nodes.new.items ≡ nodes.old.items) ⊎ (nodes.new.items ≡ nodes.old.items ++ blank id.now ∷ []) }
{
    if let Some(number) = numbers.find(nodes.as_slice(), id) {
        return Ok(number);
    }
    numbers.insert(nodes.as_slice(), id)?;
    let number = nodes.len();
    nodes.push(Node {
        id: *id,
        flags: Flags(0),
        is_found: false,
        time: 0,
        first: 0,
        end: 0,
    })?;
    Ok(number)
}

// The numbers of a node's parents. Empty for a commit that wasn't found.
fn parents_of<'a>(node: &Node, parents: &'a [usize]) -> &'a [usize]
    requires { IsInRange parents.now node.now }
    ensures { result.now ≡ parent_numbers_of parents.now node.now }
{
    if node.is_found {
        &parents[node.first..node.end]
    } else {
        &parents[..0]
    }
}

fn ids_named(alloc: Global, nodes: &[Node], numbers: &[usize]) -> Result<Vec<ObjectId>, AllocError>
    requires { AllNamed (ids_of nodes.now) numbers.now }
    ensures { IfOk result (λ ids. ids.items ≡ ids_at (ids_of nodes.now) numbers.now) }
{
    let mut ids = Vec::new(alloc);
    for &number in numbers {
        ids.push(nodes[number].id)?;
    }
    Ok(ids)
}

/// Commits by their ids, with their marks.
#[derive(Drop)]
pub(crate) struct Commits {
    nodes: Vec<Node>,
    numbers: Numbers,
    parents: Vec<usize>,
    // The number that was looked up last: its commit is often asked for next.
    last: usize,
    // The number of the last parent of the commit that was inserted last: it is often looked up next.
    parent: usize,
}

impl Model for Commits {
    ghost use Rattle.gixp_graph.specs.Table.{Table, coded_table};

    ghost Value = { Table };

    ghost coded = { coded_table };

    ghost use Rattle.gixp_graph.specs.Node.{held_in, ids_of, IsTable};

    ghost view = { λ a. record { held = held_in a.nodes.items a.parents.items; ids = ids_of a.nodes.items } };

    ghost invariant = { λ a. IsTable a.nodes.items a.numbers a.parents.items };
}

impl Commits {
    /// Creates an empty store of commits.
    pub fn new(alloc: Global) -> Self
        ensures { result ≡ record { held = finite.empty; ids = [] } }
    {
        Commits {
            nodes: Vec::new(alloc),
            numbers: Numbers::new(alloc),
            parents: Vec::new(alloc),
            last: 0,
            parent: 0,
        }
    }

    fn names(&self, number: usize, id: &ObjectId) -> bool
        ensures { IsTrue result → (number < length self.now.ids) × (id_at self.now.ids number ≡ id.now) }
    {
        if number < self.nodes.len() {
            return self.id(number) == *id;
        }
        false
    }

    // The number of an id, if it has one. An id that has none isn't held.
    fn find(&self, id: &ObjectId) -> Option<usize>
        ensures some { IfSome result (λ n. (n < length self.now.ids) × (id_at self.now.ids n ≡ id.now)) }
        ensures none { IfNone result (finite.get self.now.held id.now ≡ None) }
    {
        if self.names(self.last, id) {
            return Some(self.last);
        }
        if self.names(self.parent, id) {
            return Some(self.parent);
        }
        self.numbers.find(self.nodes.as_slice(), id)
    }

    /// Returns the number of an id. An id without a number gets the next one.
    pub fn number(&mut self, id: &ObjectId) -> Result<usize, AllocError>
        ensures named { IfOk result (λ n. (n < length self.new.ids) × (id_at self.new.ids n ≡ id.now)) }
        ensures held { self.new.held ≡ self.old.held }
        ensures kept { KeepsNumbers self.old.ids self.new.ids }
    {
        number_of(&mut self.nodes, &mut self.numbers, id)
    }

    /// Returns the numbers of these ids. Each id without a number gets one.
    pub fn numbers(&mut self, alloc: Global, ids: &[ObjectId]) -> Result<Vec<usize>, AllocError>
        ensures named { IfOk result (λ numbers. AllNamed self.new.ids numbers.items × (ids_at self.new.ids numbers.items ≡ ids.now)) }
        ensures held { self.new.held ≡ self.old.held }
        ensures kept { KeepsNumbers self.old.ids self.new.ids }
    {
        let mut numbers = Vec::new(alloc);
        for id in ids {
            let number = self.number(id)?;
            numbers.push(number)?;
        }
        Ok(numbers)
    }

    // The time and the marks of the commit with this number, where it is held.
    fn get_at(&self, number: usize) -> Option<(i64, Flags)>
        requires { number < length self.now.ids }
        ensures value { result ≡ option_map shown (finite.get self.now.held (id_at self.now.ids number)) }
        ensures once { IsOneToOne self.now.ids }
    {
        let node = self.nodes[number];
        if node.is_found {
            Some((node.time, node.flags))
        } else {
            None
        }
    }

    /// The time and the marks of a commit that is held.
    pub fn get(&self, id: &ObjectId) -> Option<(i64, Flags)>
        ensures { result ≡ option_map shown (finite.get self.now.held id.now) }
    {
        match self.find(id) {
            Some(number) => self.get_at(number),
            None => None,
        }
    }

    fn id(&self, number: usize) -> ObjectId
        requires { number < length self.now.ids }
        ensures { result ≡ id_at self.now.ids number }
    {
        self.nodes[number].id
    }

    // Inserts the commit with this number, without marks.
    fn hold(&mut self, number: usize, time: i64, parents: &[ObjectId]) -> Result<(), AllocError>
        requires { number < length self.old.ids }
        ensures ok { OnOk result (self.new.held ≡ finite.insert self.old.held (id_at self.old.ids number)
            (record { time = time; parents = parents.now; flags = record { 0 = 0 } })) }
        ensures err { OnErr result (self.new.held ≡ self.old.held) }
        ensures kept { KeepsNumbers self.old.ids self.new.ids }
    {
        let first = self.parents.len();
        for id in parents {
            let parent = number_of(&mut self.nodes, &mut self.numbers, id)?;
            self.parents.push(parent)?;
            self.parent = parent;
        }
        let end = self.parents.len();
        self.nodes[number] = Node {
            id: self.nodes[number].id,
            flags: Flags(0),
            is_found: true,
            time,
            first,
            end,
        };
        Ok(())
    }

    /// The time and the marks of a commit. A commit that isn't held is read from the objects and, where they have it,
    /// held from then on.
    pub fn lookup<O: Objects>(
        &mut self,
        alloc: Global,
        objects: &mut O,
        id: &ObjectId,
    ) -> Result<Option<(i64, Flags)>, ObjectError>
        ensures found { IfOk result (λ found. found
            ≡ option_map shown (found_in (graph_of (O.contents objects.old) self.old.held) id.now)) }
        ensures ok { OnOk result (self.new.held ≡ looked_up (graph_of (O.contents objects.old) self.old.held) id.now) }
        ensures err { OnErr result (self.new.held ≡ self.old.held) }
        ensures asked { AsksWhere (finite.get self.old.held id.now ≡ None) id.now (O.asked objects.old) (O.asked objects.new) }
        ensures contents { O.contents objects.new ≡ O.contents objects.old }
        ensures unrefused { OnOk result (O.refusals objects.new ≡ O.refusals objects.old) }
        ensures refused { IfErr result (λ e. ErrorIsRefusal e (O.refusals objects.old) (O.refusals objects.new)) }
        ensures failures { O.failures objects.old ≤ O.failures objects.new }
        ensures failed { IfErr result (λ e. (e ≡ Memory) ⊎ HasRisen (O.failures objects.old) (O.failures objects.new)) }
    {
        if let Some(number) = self.find(id) {
            self.last = number;
            return self.lookup_at(alloc, objects, number);
        }
        let Some(found) = objects.commit(alloc, id)? else {
            return Ok(None);
        };
        let number = self.number(id)?;
        self.last = number;
        let time = found.time;
        self.hold(number, time, found.parents.as_slice())?;
        Ok(Some((time, Flags(0))))
    }

    /// `lookup` for the commit with this number.
    pub fn lookup_at<O: Objects>(
        &mut self,
        alloc: Global,
        objects: &mut O,
        number: usize,
    ) -> Result<Option<(i64, Flags)>, ObjectError>
        requires { number < length self.old.ids }
        ensures found { IfOk result (λ found. found
            ≡ option_map shown (found_in (graph_of (O.contents objects.old) self.old.held) (id_at self.old.ids number))) }
        ensures once { IsOneToOne self.old.ids }
        ensures ok { OnOk result (self.new.held ≡ looked_up (graph_of (O.contents objects.old) self.old.held) (id_at self.old.ids number)) }
        ensures err { OnErr result (self.new.held ≡ self.old.held) }
        ensures kept { KeepsNumbers self.old.ids self.new.ids }
        ensures asked { AsksWhere (finite.get self.old.held (id_at self.old.ids number) ≡ None) (id_at self.old.ids number)
            (O.asked objects.old) (O.asked objects.new) }
        ensures contents { O.contents objects.new ≡ O.contents objects.old }
        ensures unrefused { OnOk result (O.refusals objects.new ≡ O.refusals objects.old) }
        ensures refused { IfErr result (λ e. ErrorIsRefusal e (O.refusals objects.old) (O.refusals objects.new)) }
        ensures failures { O.failures objects.old ≤ O.failures objects.new }
        ensures failed { IfErr result (λ e. (e ≡ Memory) ⊎ HasRisen (O.failures objects.old) (O.failures objects.new)) }
    {
        if let Some(known) = self.get_at(number) {
            return Ok(Some(known));
        }
        let id = self.id(number);
        let Some(found) = objects.commit(alloc, &id)? else {
            return Ok(None);
        };
        let time = found.time;
        self.hold(number, time, found.parents.as_slice())?;
        Ok(Some((time, Flags(0))))
    }

    /// The parents of a commit. Empty where it isn't held.
    pub fn parents(&self, alloc: Global, id: &ObjectId) -> Result<Vec<ObjectId>, AllocError>
        ensures { IfOk result (λ parents. parents.items ≡ parents_in self.now.held id.now) }
    {
        match self.find(id) {
            Some(number) => self.parents_at(alloc, number),
            None => Ok(Vec::new(alloc)),
        }
    }

    // `parents` for the commit with this number.
    fn parents_at(&self, alloc: Global, number: usize) -> Result<Vec<ObjectId>, AllocError>
        requires { number < length self.now.ids }
        ensures { IfOk result (λ parents. parents.items ≡ parents_in self.now.held (id_at self.now.ids number)) }
    {
        let parents = parents_of(&self.nodes[number], self.parents.as_slice());
        ids_named(alloc, self.nodes.as_slice(), parents)
    }

    /// Replaces the contents of `parents` with the numbers of this commit's parents.
    pub fn parent_numbers(&self, number: usize, parents: &mut Vec<usize>) -> Result<(), AllocError>
        requires { number < length self.now.ids }
        ensures named { OnOk result (AllNamed self.now.ids parents.new.items) }
        ensures parents { OnOk result (ids_at self.now.ids parents.new.items ≡ parents_in self.now.held (id_at self.now.ids number)) }
    {
        parents.clear();
        parents.extend_from_slice(parents_of(&self.nodes[number], self.parents.as_slice()))
    }

    /// Adds marks to a held commit. Returns false where it isn't held.
    pub fn insert_flags(&mut self, id: &ObjectId, flags: Flags) -> bool
        ensures held { IsTrue result ↔ IsSome (finite.get self.old.held id.now) }
        ensures flagged { self.new.held ≡ flagged self.old.held id.now flags }
    {
        match self.find(id) {
            Some(number) => self.insert_flags_at(number, flags),
            None => false,
        }
    }

    /// `insert_flags` for the commit with this number.
    pub fn insert_flags_at(&mut self, number: usize, flags: Flags) -> bool
        requires { number < length self.old.ids }
        ensures held { IsTrue result ↔ IsSome (finite.get self.old.held (id_at self.old.ids number)) }
        ensures flagged { self.new.held ≡ flagged self.old.held (id_at self.old.ids number) flags }
        ensures ids { self.new.ids ≡ self.old.ids }
    {
        let mut node = self.nodes[number];
        if node.is_found {
            node.flags.insert(flags);
            self.nodes[number] = node;
            true
        } else {
            false
        }
    }
}
