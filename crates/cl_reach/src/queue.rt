//! Nodes that wait for their turn, each once at a time.

ghost use Rattle.std.specs.Prelude.{◌≡◌, ℕ, ◌+◌, ◌≤◌, ◌⊎◌, [], ◌∷◌, length, OnOk, IfOk, MatchOption, Contains};

use std::alloc::{AllocError, Global};
use std::collections::VecDeque;
use std::marker::Model;

/// The nodes that wait, the next one first.
#[derive(Drop)]
pub struct Queue {
    nodes: VecDeque<usize>,
    waits: Vec<bool>,
}

impl Model for Queue {
    ghost use Rattle.std.specs.Prelude.{◌≡◌, ℕ, List, true, false, slice_index_or, Contains};
    ghost use Rattle.std.specs.Coded.{coded_list, coded_ℕ};

    ghost Value = { List ℕ };

    ghost coded = { coded_list coded_ℕ };

    ghost view = { λ q. q.nodes.items };

    ghost invariant = { λ q. (x : ℕ) → slice_index_or q.waits.items x false ≡ true → Contains q.nodes.items x };
}

impl Queue {
    /// A queue for nodes below a number, in which none waits.
    pub fn new(alloc: Global, nodes: usize) -> Result<Queue, AllocError>
        ensures { IfOk result (λ q. q ≡ []) }
    {
        let waits = vec![in alloc; false; nodes]?;
        Ok(Queue {
            nodes: VecDeque::new(alloc),
            waits,
        })
    }

    /// Lets a node wait, behind all others where it doesn't wait yet.
    pub fn add(&mut self, node: usize) -> Result<(), AllocError>
        ensures waits { OnOk result (Contains self.new node) }
        ensures kept { OnOk result ((x : ℕ) → Contains self.old x → Contains self.new x) }
        ensures only { OnOk result ((x : ℕ) → Contains self.new x → Contains self.old x ⊎ (x ≡ node)) }
        ensures length { OnOk result (length self.new ≤ length self.old + 1) }
    {
        if let Some(waits) = self.waits.get_mut(node) {
            if *waits {
                return Ok(());
            }
        }
        self.nodes.push_back(node)?;
        if let Some(waits) = self.waits.get_mut(node) {
            *waits = true;
        }
        Ok(())
    }

    /// Takes the next node.
    pub fn take(&mut self) -> Option<usize>
        ensures { MatchOption result (self.old ≡ []) (λ x. self.old ≡ x ∷ self.new) }
    {
        let node = self.nodes.pop_front()?;
        if let Some(waits) = self.waits.get_mut(node) {
            *waits = false;
        }
        Some(node)
    }
}
