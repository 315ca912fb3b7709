use cl_mean::law::{Asked, Patch, Ruling};
use cl_tree::kinds::IntKind;
use guard_rules::guards::{Ceiling, Guard, Veil};
use guard_rules::order::inspect_in_order;
use std::alloc::Global;
use std::test::Fail;

const REQUEST: Asked = Asked {
    from: 0,
    to: 1,
    function: 2,
    reply: false,
};

const KINDS: [IntKind; 2] = [IntKind::U8, IntKind::I32];

/// A frame of two numbers, what is ruled of it, and the numbers that it is left with.
type Case = ([i128; 2], Ruling, [i128; 2]);

/// A veil of one puts 300 at the first place, which an `unsigned char` keeps as 44. The ceiling behind it lets one pass, the last one
/// is never asked from then on.
const HOUSE: [Case; 3] = [
    ([1, 2], Ruling::Pass, [44, 2]),
    ([1, 2], Ruling::Block, [1, 2]),
    ([3, 4], Ruling::Block, [3, 4]),
];

/// What the last guard, a ceiling of two that was asked once, still lets pass.
const LAST: [Ruling; 2] = [Ruling::Pass, Ruling::Block];

fn first_wrong(guards: &mut [Box<dyn Guard + Send>]) -> Option<usize> {
    for (place, case) in HOUSE.iter().enumerate() {
        let (sent, ruling, left) = *case;
        let mut values = sent;
        if inspect_in_order(guards, &KINDS, REQUEST, &mut values) != ruling || values != left {
            return Some(place);
        }
    }
    None
}

#[test]
fn a_guard_that_is_not_asked_stays_as_it_was(rt: HostRuntime) -> Result<(), Fail> {
    let alloc = rt.alloc();
    let patch = Patch { at: 0, with: 300 };
    let veil: Box<dyn Guard + Send> = Box::new(alloc, Veil::new(REQUEST, 1, patch))?;
    let first: Box<dyn Guard + Send> = Box::new(alloc, Ceiling::new(1))?;
    let last: Box<dyn Guard + Send> = Box::new(alloc, Ceiling::new(2))?;
    let mut house = [veil, first, last];
    assert_eq!(rt; first_wrong(&mut house), None);
    assert!(rt; house[2].inspect(REQUEST, &mut []) == LAST[0]);
    assert!(rt; house[2].inspect(REQUEST, &mut []) == LAST[1]);
    Ok(())
}
