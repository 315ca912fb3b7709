//! How many integers types have.

ghost use Rattle.std.specs.Prelude.{◌≡◌, ◌≤◌, ◌∷◌, ◌+◌, ◌*◌, [], OnOk, OnErr};
ghost use Rattle.cl_typing.specs.Sizes as sized;
ghost use Rattle.cl_large.specs.Capped.{most, capped};

use cl_base::name::{Name, NoMemory};
use cl_scope::latest::Latest;
use cl_tree::tree::{CType, Declaration, Declarator};
use sqlite_items::Items;
use std::alloc::Global;
use std::marker::Model;

/// More integers than any limit admits. A greater number is kept as this one.
const MOST: u64 = 2147483648;

#[derive(Clone, Copy, Drop)]
struct Struct<'a> {
    tag: &'a Name,
    members: &'a Items<Declaration>,
}

/// The structs so far, and the integers of each tag's latest one. Contracts see the list of sizes, the
/// latest first.
#[derive(Drop)]
pub struct Sizes<'a> {
    alloc: Global,
    structs: Vec<Struct<'a>>,
    known: Latest,
}

impl<'a> Model for Sizes<'a> {
    ghost use Rattle.std.specs.Prelude.{List};
    ghost use Rattle.cl_typing.specs.Sizes.{Size};
    ghost use Rattle.cl_large.specs.Known.{sizes_in, IsSized};
    ghost use Rattle.std.specs.Coded.{codes};

    ghost Value = { List Size };

    ghost coded = { Prim.hlevel (codes) };

    ghost view = { λ s. sizes_in s.structs.items };

    ghost invariant = { λ s. IsSized s.structs.items s.known };
}

/// A sum of numbers of integers.
pub fn add(a: u64, b: u64) -> u64
    requires a { a ≤ most }
    requires b { b ≤ most }
    ensures { result ≡ capped (a + b) }
{
    MOST.min(a + b)
}

/// The integers of an array.
#[tactic(auto, using(crate::proofs::Caps::product_small))]
fn product(n: u64, size: u64) -> u64
    requires { size ≤ most }
    ensures { result ≡ capped (capped n * size) }
{
    let fewer = MOST.min(n);
    let all = fewer * size;
    MOST.min(all)
}

impl<'a> Sizes<'a> {
    pub fn new(alloc: Global) -> Sizes<'a>
        ensures { result ≡ [] }
    {
        Sizes {
            alloc,
            structs: Vec::new(alloc),
            known: Latest::new(alloc),
        }
    }

    fn of_tag(&self, tag: &Name) -> u64
        ensures { result ≡ capped (sized.size_of_tag self.now tag.now) }
    {
        match self.known.get(tag) {
            Some(size) => size as u64,
            None => 0,
        }
    }

    /// The integers of a type.
    #[tactic(auto, unfolding(cl_typing::specs::Sizes::size_of), using(crate::proofs::Caps::capped_product))]
    pub fn of(&self, t: &CType) -> u64
        ensures { result ≡ capped (sized.size_of self.now t.now) }
    {
        match t {
            CType::Integer(_) => 1,
            CType::Struct(tag) => self.of_tag(tag),
            CType::Array(inner, n) => product(*n, self.of(inner.get())),
            CType::Void | CType::Pointer(_) | CType::Floating => 0,
        }
    }

    /// The integers of declarators together.
    #[tactic(auto, unfolding(cl_typing::specs::Sizes::size_of_all), using(crate::proofs::Caps::caps))]
    pub fn of_all(&self, ds: &[Declarator]) -> u64
        ensures { result ≡ capped (sized.size_of_all self.now ds.now) }
    {
        let mut total = 0u64;
        for d in ds {
            total = add(total, self.of(&d.ctype));
        }
        total
    }

    /// The integers of members together.
    #[tactic(auto, unfolding(cl_typing::specs::Sizes::size_of_members), using(crate::proofs::Caps::caps))]
    fn of_members(&self, members: &[Declaration]) -> u64
        ensures { result ≡ capped (sized.size_of_members self.now members.now) }
    {
        let mut total = 0u64;
        for m in members {
            total = add(total, self.of_all(m.names.as_slice()));
        }
        total
    }

    /// A struct becomes known.
    pub fn bind(&mut self, tag: &'a Name, members: &'a Items<Declaration>) -> Result<(), NoMemory>
        ensures ok { OnOk result (self.new ≡ sized.size_entry tag.now (sized.size_of_members self.old members.now) ∷
            self.old) }
        ensures err { OnErr result (self.new ≡ self.old) }
    {
        let size = self.of_members(members.as_slice());
        self.structs.push(Struct { tag, members })?;
        match self.known.set(self.alloc, tag, size as usize) {
            Ok(()) => Ok(()),
            Err(_) => {
                self.structs.pop();
                Err(NoMemory)
            }
        }
    }
}
