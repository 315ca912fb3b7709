//! Writes instructions one after the other.

ghost use Rattle.std.specs.Prelude.{◌≡◌, ◌+◌, ◌-◌, ◌<◌, [], ◌∷◌, length, max, slice_set, pos, IfOk, OnOk};
ghost use Rattle.cl_mean.specs.Shape.{count_of};
ghost use Rattle.en_image.specs.declared.instr.Instr.TheVariants.{At, Drop, Fetch, Jump, Local, Push, Store, Zero};
ghost use Rattle.code_forms.specs.declared.mark.Mark.TheVariants.{Set};
ghost use Rattle.code_forms.specs.Layout.{address};
ghost use Rattle.code_forms.specs.Lowering.{convert_code};
ghost use Rattle.code_forms.specs.Pieces.{no_code, single};
ghost use Rattle.code_tables.specs.Types.{elements_in, section_in, shape_in};
ghost use Rattle.code_exprs.specs.Written.{pushed, reached, wrote};

use crate::kinds::holds_all_of;
use cl_base::name::NoMemory;
use cl_tree::kinds::IntKind;
use code_forms::mark::Mark;
use code_forms::storage::Storage;
use code_tables::types::{Elements, Section, ValueType, plus};
use en_image::instr::Instr;
use std::alloc::Global;
use std::marker::Model;

/// Instructions, and how many cells the frame has at most.
#[derive(Drop)]
pub struct Writer {
    code: Vec<Mark>,
    most: u32,
}

impl Model for Writer {
    ghost use Rattle.code_exprs.specs.Written.{Written};

    ghost Value = { Written };

    ghost view = { λ w. record { code = w.code.items; most = w.most } };
}

/// The instruction that pushes an address.
pub fn address(storage: Storage) -> Instr
    ensures { result ≡ address storage }
{
    match storage {
        Storage::Local(cell) => Instr::Local(cell),
        Storage::Borrowed(cell) => Instr::Borrowed(cell),
        Storage::Global(cell) => Instr::Global(cell),
    }
}

impl Writer {
    /// A writer that begins a frame with so many cells.
    pub fn new(alloc: Global, cells: u32) -> Writer
        ensures { result ≡ record { code = []; most = cells } }
    {
        Writer {
            code: Vec::new(alloc),
            most: cells,
        }
    }

    /// The place of the next instruction. A place that does not fit is want of memory.
    pub fn place(&self) -> Result<u32, NoMemory>
        ensures { IfOk result (λ n. n ≡ length self.now.code) }
    {
        match u32::try_from(self.code.len()) {
            Ok(place) => Ok(place),
            Err(_) => Err(NoMemory),
        }
    }

    /// Writes an instruction.
    pub fn put(&mut self, instr: Instr) -> Result<(), NoMemory>
        ensures { OnOk result (self.new ≡ pushed (instr ∷ []) self.old) }
    {
        self.code.push(Mark::Set(instr))?;
        Ok(())
    }

    /// Notes that the frame comes to so many cells.
    pub fn reach(&mut self, top: u32, high: u32) -> Result<(), NoMemory>
        ensures { OnOk result (self.new ≡ reached (top + high) self.old) }
    {
        let cells = plus(top, high)?;
        if self.most < cells {
            self.most = cells;
        }
        Ok(())
    }

    /// Writes an instruction in place of one that stands there.
    pub fn set(&mut self, place: u32, instr: Instr)
        requires { place < length self.old.code }
        ensures { self.new ≡ record { code = slice_set self.old.code place (Set instr); most = self.old.most } }
    {
        self.code[place as usize] = Mark::Set(instr);
    }

    /// Writes an instruction that pushes a cell.
    pub fn put_single(&mut self, top: u32, instr: Instr) -> Result<(), NoMemory>
        ensures { OnOk result (self.new ≡ wrote (single instr) top self.old) }
    {
        self.put(instr)?;
        self.reach(top, 1)
    }

    /// Writes the code of a form that no accepted source has.
    pub fn put_nothing(&mut self, top: u32) -> Result<(), NoMemory>
        ensures { OnOk result (self.new ≡ wrote no_code top self.old) }
    {
        self.reach(top, 0)
    }

    /// Converts the number on top.
    #[tactic(auto, unfolding(code_forms::specs::Lowering::convert_code))]
    pub fn put_convert(&mut self, top: u32, from: IntKind, to: IntKind) -> Result<(), NoMemory>
        ensures { OnOk result (self.new ≡ reached (top + 1) (pushed (convert_code from to) self.old)) }
    {
        if !holds_all_of(to, from) {
            self.put(Instr::Convert(to))?;
        }
        self.reach(top, 1)
    }

    /// Fetches the cells of a value from the address on top.
    pub fn put_fetch(
        &mut self,
        alloc: Global,
        top: u32,
        ctype: ValueType<'_>,
    ) -> Result<(), NoMemory>
        ensures { OnOk result (self.new ≡ reached (top + count_of (shape_in ctype.entry)) (pushed (Fetch (count_of (shape_in ctype.entry)) ∷ []) self.old)) }
    {
        let cells = ctype.cells(alloc)?;
        self.put(Instr::Fetch(cells))?;
        self.reach(top, cells)
    }

    /// The number on top as 1 or 0, where 0 is pushed at a place.
    pub fn put_truth(&mut self, top: u32, past: u32) -> Result<(), NoMemory>
        ensures { OnOk result (self.new ≡ reached (top + 1) (pushed (Zero past ∷ Push (pos 1) ∷ Jump (past + 1) ∷ Push (pos 0) ∷ []) self.old)) }
    {
        self.put(Instr::Zero(past))?;
        self.put(Instr::Push(1))?;
        self.put(Instr::Jump(plus(past, 1)?))?;
        self.put(Instr::Push(0))?;
        self.reach(top, 1)
    }

    /// The address of an element, by the address of the array and an index.
    pub fn put_at(
        &mut self,
        alloc: Global,
        top: u32,
        es: Elements<'_>,
        line: u32,
    ) -> Result<(), NoMemory>
        ensures { OnOk result (self.new ≡ reached (top + 1) (pushed (At (elements_in es.entry).count (count_of (elements_in es.entry).shape) line ∷ []) self.old)) }
    {
        let size = es.ctype.cells(alloc)?;
        match u32::try_from(es.count) {
            Ok(count) => {
                self.put(Instr::At { count, size, line })?;
                self.reach(top, 1)
            }
            Err(_) => Err(NoMemory),
        }
    }

    /// Behind a value in so many cells: the address of the first of them, twice.
    pub fn put_twice(&mut self, top: u32, cells: u32) -> Result<(), NoMemory>
        ensures { OnOk result (self.new ≡ reached (top + (cells + 2)) (pushed (Local top ∷ Local top ∷ []) self.old)) }
    {
        self.put(Instr::Local(top))?;
        self.put(Instr::Local(top))?;
        self.reach(top, plus(cells, 2)?)
    }

    /// Of a value in so many cells, with the address of the first of them twice and an index: the element alone.
    pub fn put_element(
        &mut self,
        alloc: Global,
        top: u32,
        es: Elements<'_>,
        line: u32,
        cells: u32,
    ) -> Result<(), NoMemory>
        ensures { OnOk result (self.new ≡ reached (top + (cells + 1 + count_of (elements_in es.entry).shape))
            (pushed (At (elements_in es.entry).count (count_of (elements_in es.entry).shape) line ∷ Fetch (count_of (elements_in es.entry).shape) ∷ Store (count_of (elements_in es.entry).shape) ∷ Drop (cells - count_of (elements_in es.entry).shape) ∷ []) self.old)) }
    {
        let size = es.ctype.cells(alloc)?;
        let Ok(count) = u32::try_from(es.count) else {
            return Err(NoMemory);
        };
        self.put(Instr::At { count, size, line })?;
        self.put(Instr::Fetch(size))?;
        self.put(Instr::Store(size))?;
        self.put(Instr::Drop(cells.saturating_sub(size)))?;
        self.reach(top, plus(plus(cells, 1)?, size)?)
    }

    /// Of a value in so many cells: a part alone.
    pub fn put_section(
        &mut self,
        alloc: Global,
        top: u32,
        s: Section<'_>,
        cells: u32,
    ) -> Result<(), NoMemory>
        ensures { OnOk result (self.new ≡ reached (top + (cells + 1 + count_of (section_in s.entry).shape))
            (pushed (Local top ∷ Local (top + (section_in s.entry).offset) ∷ Fetch (count_of (section_in s.entry).shape) ∷ Store (count_of (section_in s.entry).shape) ∷ Drop (cells - count_of (section_in s.entry).shape) ∷ []) self.old)) }
    {
        let size = s.ctype.cells(alloc)?;
        self.put(Instr::Local(top))?;
        self.put(Instr::Local(plus(top, s.offset)?))?;
        self.put(Instr::Fetch(size))?;
        self.put(Instr::Store(size))?;
        self.put(Instr::Drop(cells.saturating_sub(size)))?;
        self.reach(top, plus(plus(cells, 1)?, size)?)
    }
}
