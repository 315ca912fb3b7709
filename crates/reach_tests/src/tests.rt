ghost use Rattle.std.specs.Prelude.{◌≡◌};

use cl_reach::graph::Edge;
use cl_reach::propagate::{Seed, propagate};
use std::alloc::AllocError;

fn edge(from: usize, to: usize) -> Edge
    ensures { result ≡ record { from = from; to = to } }
{
    Edge { from, to }
}

fn seed(node: usize, label: usize) -> Seed
    ensures { result ≡ record { node = node; label = label } }
{
    Seed { node, label }
}

#[test]
fn labels_go_along_edges_and_round_cycles(rt: HostRuntime) -> Result<(), AllocError> {
    let seeds = [seed(0, 0), seed(3, 70)];
    let edges = [edge(0, 1), edge(1, 2), edge(2, 1), edge(3, 2), edge(4, 0)];
    let carried = propagate(rt.alloc(), 5, 71, &seeds, &edges)?;
    assert!(rt; carried.has(0, 0) && carried.has(1, 0) && carried.has(2, 0));
    assert!(rt; carried.has(1, 70) && carried.has(2, 70) && carried.has(3, 70));
    assert!(rt; !carried.has(0, 70) && !carried.has(4, 0) && !carried.has(3, 0));
    assert!(rt; !carried.has(9, 0) && !carried.has(0, 500));
    Ok(())
}
