//! Numbers for holders.

ghost use Rattle.std.specs.Prelude.{◌≡◌, ◌<◌, ◌⊎◌, ℕ, [], Some, None, length, take, slice_index_or, All, OnOk, IfOk};
ghost use Rattle.cle_ways.specs.declared.ways.Holder.{Holder};
ghost use Rattle.cle_table.specs.Numbers.{number_of, row_at, rows_at, Puts, HasNumber, IsNumbered, WayNumbered, OriginNumbered, node_of};

use cl_base::name::NoMemory;
use cle_ways::ways::{Holder, Origin, Way};
use std::alloc::Global;
use std::marker::Model;

/// The numbers of a row of places; a place may have none. Contracts see the list.
#[derive(Drop)]
pub struct Row {
    numbers: Vec<Option<usize>>,
}

impl Model for Row {
    ghost use Rattle.std.specs.Prelude.{ℕ, List, Option};
    ghost use Rattle.std.specs.Coded.{codes};

    ghost Value = { List (Option ℕ) };

    ghost coded = { Prim.hlevel (codes) };

    ghost view = { λ s. s.numbers.items };
}

/// Lets a row have a place.
fn grow(row: &mut Vec<Option<usize>>, k: usize) -> Result<(), NoMemory>
    ensures long { OnOk result (k < length row.new.items) }
    ensures same { OnOk result ((j : ℕ) → row_at row.new.items j ≡ row_at row.old.items j) }
{
    for _ in row.len()..k {
        row.push(None)?;
    }
    if row.len() <= k {
        row.push(None)?;
    }
    Ok(())
}

impl Row {
    fn new(alloc: Global) -> Row
        ensures { result ≡ [] }
    {
        Row {
            numbers: Vec::new(alloc),
        }
    }

    fn get(&self, k: usize) -> Option<usize>
        ensures { result ≡ row_at self.now k }
    {
        match self.numbers.get(k) {
            Some(number) => *number,
            None => None,
        }
    }

    fn put(&mut self, k: usize, number: usize) -> Result<(), NoMemory>
        ensures { OnOk result (Puts (row_at self.old) (row_at self.new) k number) }
    {
        grow(&mut self.numbers, k)?;
        self.numbers[k] = Some(number);
        Ok(())
    }
}

/// Rows by numbers. Contracts see the list of lists.
#[derive(Drop)]
pub struct Rows {
    rows: Vec<Row>,
}

impl Model for Rows {
    ghost use Rattle.std.specs.Prelude.{ℕ, List, Option};
    ghost use Rattle.std.specs.Coded.{codes};

    ghost Value = { List (List (Option ℕ)) };

    ghost coded = { Prim.hlevel (codes) };

    ghost view = { λ s. s.rows.items };
}

/// Lets a row of a number be there.
fn grow_rows(alloc: Global, rows: &mut Vec<Row>, f: usize) -> Result<(), NoMemory>
    ensures long { OnOk result (f < length rows.new.items) }
    ensures same { OnOk result ((g : ℕ) → slice_index_or rows.new.items g [] ≡ slice_index_or rows.old.items g []) }
{
    for _ in rows.len()..f {
        rows.push(Row::new(alloc))?;
    }
    if rows.len() <= f {
        rows.push(Row::new(alloc))?;
    }
    Ok(())
}

impl Rows {
    fn get(&self, f: usize, k: usize) -> Option<usize>
        ensures { result ≡ rows_at self.now (f, k) }
    {
        match self.rows.get(f) {
            Some(row) => row.get(k),
            None => None,
        }
    }

    fn put(&mut self, alloc: Global, f: usize, k: usize, number: usize) -> Result<(), NoMemory>
        ensures { OnOk result (Puts (rows_at self.old) (rows_at self.new) (f, k) number) }
    {
        grow_rows(alloc, &mut self.rows, f)?;
        self.rows[f].put(k, number)
    }
}

/// The holders of a program that have a number, in the order of their numbers, and the number of each.
#[derive(Drop)]
pub struct Nodes {
    objects: Row,
    results: Row,
    locals: Rows,
    holders: Vec<Holder>,
}

impl Nodes {
    fn new(alloc: Global) -> Nodes
        ensures { IsNumbered result }
    {
        Nodes {
            objects: Row::new(alloc),
            results: Row::new(alloc),
            locals: Rows {
                rows: Vec::new(alloc),
            },
            holders: Vec::new(alloc),
        }
    }

    /// How many holders have a number: those below.
    pub fn len(&self) -> usize
        ensures { result ≡ length self.now.holders.items }
    {
        self.holders.len()
    }

    /// The number of a holder.
    pub fn get(&self, x: Holder) -> Option<usize>
        ensures { result ≡ number_of self.now x }
    {
        match x {
            Holder::Object(k) => self.objects.get(k),
            Holder::Local(f, k) => self.locals.get(f, k),
            Holder::Result(f) => self.results.get(f),
        }
    }

    fn put(&mut self, alloc: Global, x: Holder, number: usize) -> Result<(), NoMemory>
        ensures number { OnOk result (Puts (number_of self.old) (number_of self.new) x number) }
        ensures holders { OnOk result (self.new.holders.items ≡ self.old.holders.items) }
    {
        match x {
            Holder::Object(k) => self.objects.put(k, number),
            Holder::Local(f, k) => self.locals.put(alloc, f, k, number),
            Holder::Result(f) => self.results.put(f, number),
        }
    }

    /// Gives a holder a number, if it has none.
    fn add(&mut self, alloc: Global, x: Holder) -> Result<(), NoMemory>
        requires { IsNumbered self.old }
        ensures numbered { OnOk result (IsNumbered self.new) }
        ensures there { OnOk result (HasNumber self.new x) }
        ensures kept { OnOk result ((y : Holder) → HasNumber self.old y → HasNumber self.new y) }
    {
        if self.get(x).is_some() {
            return Ok(());
        }
        let number = self.len();
        self.put(alloc, x, number)?;
        self.holders.push(x)?;
        Ok(())
    }

    fn add_origin(&mut self, alloc: Global, from: Origin) -> Result<(), NoMemory>
        requires { IsNumbered self.old }
        ensures numbered { OnOk result (IsNumbered self.new) }
        ensures there { OnOk result (OriginNumbered self.new from) }
        ensures kept { OnOk result ((y : Holder) → HasNumber self.old y → HasNumber self.new y) }
    {
        match from {
            Origin::Just(_) => Ok(()),
            Origin::AllOf(x) => self.add(alloc, x),
        }
    }

    fn add_way(&mut self, alloc: Global, way: Way) -> Result<(), NoMemory>
        requires { IsNumbered self.old }
        ensures numbered { OnOk result (IsNumbered self.new) }
        ensures there { OnOk result (WayNumbered self.new way) }
        ensures kept { OnOk result ((y : Holder) → HasNumber self.old y → HasNumber self.new y) }
    {
        self.add(alloc, way.into)?;
        self.add_origin(alloc, way.from)
    }

    /// Numbers for all holders that ways name.
    pub fn of(alloc: Global, ways: &[Way]) -> Result<Nodes, NoMemory>
        ensures numbered { IfOk result (λ s. IsNumbered s) }
        ensures all { IfOk result (λ s. All (WayNumbered s) ways.now) }
    {
        let mut nodes = Nodes::new(alloc);
        for way in ways {
            nodes.add_way(alloc, *way)?;
        }
        Ok(nodes)
    }

    /// The number of a holder that has one.
    pub fn number(&self, x: Holder) -> usize
        ensures { result ≡ node_of self.now x }
    {
        match self.get(x) {
            Some(number) => number,
            None => 0,
        }
    }
}
