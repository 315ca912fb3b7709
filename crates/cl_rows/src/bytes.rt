//! How many bytes types take in a payload.

ghost use Rattle.std.specs.Prelude.{◌≡◌, ◌≤◌, ◌+◌, ◌*◌, [], OnOk, IfOk, length, take};
ghost use Rattle.cl_mean.specs.Shape as shape;
ghost use Rattle.cl_mean.specs.Shape.{Shape, shape_of, struct_known, with_struct, structs_of};
ghost use Rattle.cl_tree.specs.Words.{entry};
ghost use Rattle.cl_rows.specs.Capped.{most, capped};
ghost use Rattle.cl_rows.specs.Bytes.{IsKnown, AreKnown, AreNoted, structs_in, bytes_of, array_bytes, arrays_bytes, declared_bytes, members_bytes};

use cl_base::name::{Name, NoMemory};
use cl_mean::checked::Typed;
use cl_scope::latest::Latest;
use cl_tree::kinds::IntKind;
use cl_tree::tree::{CType, Declaration, Declarator, Item};
use std::alloc::Global;

/// More bytes than any payload may have. A greater number is kept as this one.
const MOST: u64 = 2147483648;

/// Items, and the bytes of each tag's first struct among them.
#[derive(Drop)]
pub struct Bytes<'a> {
    pub items: &'a [Item],
    known: Latest,
}

/// How many bytes an integer takes.
fn size_of(kind: IntKind) -> u64
    ensures size { result ≡ capped (shape.size_of kind + 0) }
{
    match kind {
        IntKind::I8 | IntKind::U8 => 1,
        IntKind::I16 | IntKind::U16 => 2,
        IntKind::I32 | IntKind::U32 => 4,
        IntKind::Long | IntKind::ULong | IntKind::LLong | IntKind::ULLong => 8,
    }
}

/// A sum of numbers of bytes.
fn add(a: u64, b: u64) -> u64
    requires a { a ≤ most }
    requires b { b ≤ most }
    ensures { result ≡ capped (a + b) }
{
    MOST.min(a + b)
}

/// The bytes of an array.
#[tactic(auto, using(crate::proofs::Caps::product_small))]
fn product(n: u64, size: u64) -> u64
    requires { size ≤ most }
    ensures { result ≡ capped (capped n * size) }
{
    let fewer = MOST.min(n);
    let all = fewer * size;
    MOST.min(all)
}

/// The bytes of so many elements.
fn elements(n: u64, size: u64) -> u64
    requires { size ≤ most }
    ensures { (e : Shape) → size ≡ capped (bytes_of e) → result ≡ capped (bytes_of (shape.array e n)) }
{
    product(n, size)
}

/// The first items.
fn front(items: &[Item], i: usize) -> &[Item]
    requires { i ≤ length items.now }
    ensures { result.now ≡ take i items.now }
{
    &items[..i]
}

impl<'a> Bytes<'a> {
    fn of_tag(&self, tag: &Name) -> u64
        requires { IsKnown self.now }
        ensures { result ≡ capped (bytes_of (struct_known (entry (structs_in self.now) tag.now))) }
    {
        match self.known.get(tag) {
            Some(size) => size as u64,
            None => 0,
        }
    }

    /// The bytes of a type.
    #[tactic(auto, unfolding(cl_mean::specs::Shape::shape_of), using(crate::proofs::Caps::capped_most))]
    pub fn of(&self, t: &CType) -> u64
        requires { IsKnown self.now }
        ensures { result ≡ capped (bytes_of (shape_of (structs_in self.now) t.now)) }
    {
        match t {
            CType::Integer(kind) => size_of(*kind),
            CType::Struct(tag) => self.of_tag(tag),
            CType::Array(inner, n) => elements(*n, self.of(inner.get())),
            CType::Void | CType::Pointer(_) | CType::Floating => 0,
        }
    }

    /// The bytes of declarators together.
    #[tactic(auto, unfolding(crate::specs::Bytes::declared_bytes), using(crate::proofs::Caps::caps))]
    pub fn of_all(&self, ds: &[Declarator]) -> u64
        requires { IsKnown self.now }
        ensures { result ≡ capped (declared_bytes (structs_in self.now) ds.now) }
    {
        let mut total = 0u64;
        for d in ds {
            total = add(total, self.of(&d.ctype));
        }
        total
    }

    /// The bytes of members together.
    #[tactic(auto, unfolding(crate::specs::Bytes::members_bytes), using(crate::proofs::Caps::caps))]
    fn of_members(&self, members: &[Declaration]) -> u64
        requires { IsKnown self.now }
        ensures { result ≡ capped (members_bytes (structs_in self.now) members.now) }
    {
        let mut total = 0u64;
        for m in members {
            total = add(total, self.of_all(m.names.as_slice()));
        }
        total
    }

    /// The bytes of a type, if it is an array.
    #[tactic(auto, unfolding(cl_mean::specs::Shape::shape_of), using(crate::proofs::Sums::no_array))]
    fn of_array(&self, t: &CType) -> u64
        requires { IsKnown self.now }
        ensures { result ≡ capped (array_bytes (shape_of (structs_in self.now) t.now)) }
    {
        match t {
            CType::Array(_, _) => self.of(t),
            CType::Integer(_) | CType::Struct(_) => 0,
            CType::Void | CType::Pointer(_) | CType::Floating => 0,
        }
    }

    /// The bytes of those declarators together that are arrays.
    #[tactic(auto, unfolding(crate::specs::Bytes::arrays_bytes), using(crate::proofs::Caps::caps))]
    fn of_arrays(&self, ds: &[Declarator]) -> u64
        requires { IsKnown self.now }
        ensures { result ≡ capped (arrays_bytes (structs_in self.now) ds.now) }
    {
        let mut total = 0u64;
        for d in ds {
            total = add(total, self.of_array(&d.ctype));
        }
        total
    }

    /// The bytes of a result and of the array parameters.
    #[tactic(auto, using(crate::proofs::Caps::caps))]
    pub fn of_reply(&self, returns: &CType, params: &[Declarator]) -> u64
        requires { IsKnown self.now }
        ensures { result ≡ capped (bytes_of (shape_of (structs_in self.now) returns.now) + arrays_bytes (structs_in self.now) params.now) }
    {
        add(self.of(returns), self.of_arrays(params))
    }

    /// Notes the bytes of a struct, where none of its tag is noted.
    #[tactic(auto, using(crate::proofs::Sums::noted_new, crate::proofs::Sums::noted_old))]
    fn note(&mut self, alloc: Global, tag: &Name, members: &[Declaration]) -> Result<(), NoMemory>
        requires { IsKnown self.old }
        ensures known { OnOk result (AreNoted (structs_in self.old) tag.now members.now self.new.known) }
        ensures items { OnOk result (self.new.items ≡ self.old.items) }
    {
        if self.known.get(tag).is_some() {
            return Ok(());
        }
        let size = self.of_members(members);
        self.known.set(alloc, tag, size as usize)
    }

    /// Notes the bytes of a struct, if an item is one.
    fn add(&mut self, alloc: Global, item: &Item) -> Result<(), NoMemory>
        requires { IsKnown self.old }
        ensures known { OnOk result (AreKnown (with_struct (structs_in self.old) item.now) self.new.known) }
        ensures items { OnOk result (self.new.items ≡ self.old.items) }
    {
        match item {
            Item::Struct {
                name,
                members,
                line: _,
            } => self.note(alloc, name, members.as_slice()),
            _ => Ok(()),
        }
    }

    #[tactic(auto, using(crate::proofs::Sums::noted_none))]
    fn none(alloc: Global, items: &'a [Item]) -> Bytes<'a>
        ensures items { result.items.now ≡ take 0 items.now }
        ensures known { AreKnown (structs_of []) result.known }
    {
        Bytes {
            items: front(items, 0),
            known: Latest::new(alloc),
        }
    }

    /// The structs of a program, with their bytes.
    pub fn of_items(alloc: Global, items: &'a [Item]) -> Result<Bytes<'a>, NoMemory>
        ensures items { IfOk result (λ b. b.items.now ≡ items.now) }
        ensures known { IfOk result (λ b. IsKnown b) }
    {
        let mut all = Bytes::none(alloc, items);
        for (i, item) in items.iter().enumerate() {
            all.add(alloc, item)?;
            all.items = front(items, i + 1);
        }
        Ok(all)
    }

    /// The same of a program's items.
    pub fn of_program(alloc: Global, typed: &'a Typed) -> Result<Bytes<'a>, NoMemory>
        ensures items { IfOk result (λ b. b.items.now ≡ typed.now.program.items) }
        ensures known { IfOk result (λ b. IsKnown b) }
    {
        Bytes::of_items(alloc, typed.program.items.as_slice())
    }
}
