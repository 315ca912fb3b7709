//! The labels that holders carry.

ghost use Rattle.std.specs.Prelude.{◌≡◌, ◌↔◌, ◌*◌, ◌+◌, List, map, slice_index_or, IfOk, IsTrue};
ghost use Rattle.cle_ways.specs.declared.ways.Note.{Note};
ghost use Rattle.cle_ways.specs.Flow.{AreFlows, none_carried};
ghost use Rattle.cle_table.specs.Exact.{noted, labels_in, Holds, IsExact};
ghost use Rattle.cle_table.specs.Numbers.{ways_in};
ghost use Rattle.cle_ways.specs.declared.ways.Holder.TheVariants.{Object, Local, Result};
ghost use Rattle.cle_table.specs.Exact.{CarriedBy, LocalsBy};

use crate::graph::Laid;
use crate::lists::lists;
use crate::nodes::Nodes;
use crate::ways::{count_labels, label_number, ways_of};
use cl_base::name::NoMemory;
use cl_mean::checked::{Carried, CarriedLocals, Flow};
use cl_mean::labels::Mention;
use cl_reach::propagate::{Carried as Bits, propagate};
use cle_walk::program::Notes;
use cle_ways::ways::{Body, Holder, Way};
use sqlite_items::Items;
use std::alloc::Global;

/// The labels that each holder carries: as bits, and as sorted lists.
#[derive(Drop)]
pub struct Table {
    nodes: Nodes,
    bits: Bits,
    lists: Items<Carried>,
}

/// The list of a number; an empty one of a number that isn't there.
fn labels_at(lists: &[Carried], n: usize) -> &[Mention]
    ensures { result.now ≡ (slice_index_or lists.now n none_carried).labels }
{
    match lists.get(n) {
        Some(carried) => carried.labels.as_slice(),
        None => &[],
    }
}

impl Table {
    /// Leads labels along ways.
    fn along(alloc: Global, ways: &[Way]) -> Result<Table, NoMemory>
        ensures { IfOk result (λ t. (notes : List Note) → ways.now ≡ ways_in notes → IsExact notes t) }
    {
        let nodes = Nodes::of(alloc, ways)?;
        let laid = Laid::of(alloc, &nodes, ways)?;
        let count = count_labels(ways);
        let bits = propagate(
            alloc,
            nodes.len(),
            count,
            laid.seeds.as_slice(),
            laid.edges.as_slice(),
        )?;
        let lists = lists(alloc, &bits, nodes.len(), count)?;
        Ok(Table { nodes, bits, lists })
    }

    /// Leads labels along the ways that are noted.
    ///
    /// # Errors
    ///
    /// Want of memory.
    pub fn of(alloc: Global, notes: &Notes) -> Result<Table, NoMemory>
        ensures { IfOk result (λ t. IsExact (noted notes.now) t) }
    {
        let ways = ways_of(alloc, notes)?;
        Table::along(alloc, ways.as_slice())
    }

    /// The labels that a holder carries, sorted: first labels by their numbers, then those of levels.
    pub fn labels(&self, x: Holder) -> &[Mention]
        ensures { result.now ≡ labels_in self.now x }
    {
        match self.nodes.get(x) {
            Some(n) => labels_at(self.lists.as_slice(), n),
            None => &[],
        }
    }

    /// Whether a holder carries a label.
    pub fn has(&self, x: Holder, m: Mention) -> bool
        ensures { IsTrue result ↔ Holds self.now x m }
    {
        match self.nodes.get(x) {
            Some(n) => self.bits.has(n, label_number(m)),
            None => false,
        }
    }

    /// What a holder carries.
    fn carried(&self, alloc: Global, x: Holder) -> Result<Carried, NoMemory>
        ensures { IfOk result (λ c. c.labels ≡ labels_in self.now x) }
    {
        let labels = Items::from_slice(alloc, self.labels(x))?;
        Ok(Carried { labels })
    }

    fn objects(&self, alloc: Global, count: usize) -> Result<Items<Carried>, NoMemory>
        ensures { IfOk result (λ all. CarriedBy self.now Object count all) }
    {
        let mut all = Items::new(alloc);
        for k in 0..count {
            all.push(self.carried(alloc, Holder::Object(k))?)?;
        }
        Ok(all)
    }

    fn results(&self, alloc: Global, count: usize) -> Result<Items<Carried>, NoMemory>
        ensures { IfOk result (λ all. CarriedBy self.now Result count all) }
    {
        let mut all = Items::new(alloc);
        for f in 0..count {
            all.push(self.carried(alloc, Holder::Result(f))?)?;
        }
        Ok(all)
    }

    fn locals_in(&self, alloc: Global, f: usize, count: usize) -> Result<Items<Carried>, NoMemory>
        ensures { IfOk result (λ all. CarriedBy self.now (Local f) count all) }
    {
        let mut all = Items::new(alloc);
        for k in 0..count {
            all.push(self.carried(alloc, Holder::Local(f, k))?)?;
        }
        Ok(all)
    }

    fn locals(&self, alloc: Global, functions: &[Body]) -> Result<Items<CarriedLocals>, NoMemory>
        ensures { IfOk result (λ all. LocalsBy self.now functions.now all) }
    {
        let mut all = Items::new(alloc);
        for (f, function) in functions.iter().enumerate() {
            let locals = self.locals_in(alloc, f, function.locals)?;
            all.push(CarriedLocals { locals })?;
        }
        Ok(all)
    }

    /// What so many objects of static duration carry, and the locals and results of these functions.
    ///
    /// # Errors
    ///
    /// Want of memory.
    pub fn flow(&self, alloc: Global, objects: usize, functions: &[Body]) -> Result<Flow, NoMemory>
        ensures { IfOk result (λ f. (notes : List Note) → IsExact notes self.now → AreFlows notes objects (map (λ b. b.locals) functions.now) f) }
    {
        let objects = self.objects(alloc, objects)?;
        let locals = self.locals(alloc, functions)?;
        let results = self.results(alloc, functions.len())?;
        Ok(Flow {
            objects,
            locals,
            results,
        })
    }
}
