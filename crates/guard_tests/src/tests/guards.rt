use cl_mean::law::{Asked, GuardAct, Law, Patch, Rule, Rules, Ruling};
use guard_rules::guards::{Ceiling, Guard, TableGuard, Veil};
use sqlite_items::Items;
use std::alloc::{AllocError, Global};
use std::test::Fail;

/// The request of a call, and its reply.
const REQUEST: Asked = Asked {
    from: 0,
    to: 1,
    function: 2,
    reply: false,
};

const REPLY: Asked = Asked {
    from: 0,
    to: 1,
    function: 2,
    reply: true,
};

/// A request of another function.
const OTHER: Asked = Asked {
    from: 0,
    to: 1,
    function: 3,
    reply: false,
};

/// A frame of two numbers, what is ruled of it, and the numbers that it is left with.
type Case = (Asked, [i128; 2], Ruling, [i128; 2]);

/// A ceiling of two counts requests alone, and requests of every function.
const CEILING: [Case; 6] = [
    (REQUEST, [1, 2], Ruling::Pass, [1, 2]),
    (REPLY, [3, 4], Ruling::Pass, [3, 4]),
    (OTHER, [5, 6], Ruling::Pass, [5, 6]),
    (REQUEST, [7, 8], Ruling::Block, [7, 8]),
    (OTHER, [7, 8], Ruling::Block, [7, 8]),
    (REPLY, [9, 9], Ruling::Pass, [9, 9]),
];

/// A veil of one over the first number of a reply.
const VEIL: [Case; 4] = [
    (REQUEST, [1, 2], Ruling::Pass, [1, 2]),
    (REPLY, [1, 2], Ruling::Pass, [9, 2]),
    (REPLY, [2, 3], Ruling::Pass, [2, 3]),
    (REPLY, [3, 4], Ruling::Pass, [3, 4]),
];

/// The first rule that matches decides, a later patch at the same place wins, and one past the last place does nothing.
const TABLE: [Case; 4] = [
    (REQUEST, [1, 2], Ruling::Pass, [6, 2]),
    (REPLY, [1, 2], Ruling::Block, [1, 2]),
    (OTHER, [1, 2], Ruling::Pass, [1, 2]),
    (OTHER, [1, 2], Ruling::Block, [1, 2]),
];

fn rule(function: Option<u32>, reply: bool, act: GuardAct) -> Rule {
    Rule {
        from: Some(0),
        to: None,
        function,
        reply,
        act,
    }
}

fn patches(alloc: Global) -> Result<Items<Patch>, AllocError> {
    let all = [
        Patch { at: 0, with: 5 },
        Patch { at: 2, with: 7 },
        Patch { at: 0, with: 6 },
    ];
    Items::from_slice(alloc, &all)
}

fn table(alloc: Global) -> Result<Law, AllocError> {
    let mut rules = Vec::with_capacity(alloc, 4)?;
    rules.push(rule(Some(2), false, GuardAct::Redact(patches(alloc)?)))?;
    rules.push(rule(Some(2), false, GuardAct::Block))?;
    rules.push(rule(None, true, GuardAct::Block))?;
    rules.push(rule(None, false, GuardAct::Quota(1)))?;
    let rules = Rules::from_vec(rules);
    Ok(Law { rules })
}

/// Whether a frame comes out as it must.
fn is_right(guard: &mut dyn Guard, case: &Case) -> bool {
    let (asked, sent, ruling, left) = *case;
    let mut values = sent;
    let given = guard.inspect(asked, &mut values);
    given == ruling && values == left
}

/// Asks a guard one frame after the other. It says which of them comes out otherwise.
fn first_wrong(guard: &mut dyn Guard, cases: &[Case]) -> Option<usize> {
    for (place, case) in cases.iter().enumerate() {
        if !is_right(guard, case) {
            return Some(place);
        }
    }
    None
}

#[test]
fn guards_judge_frames_by_their_laws(rt: HostRuntime) -> Result<(), Fail> {
    let mut ceiling = Ceiling::new(2);
    assert_eq!(rt; first_wrong(&mut ceiling, &CEILING), None);
    assert!(rt; !ceiling.idle());
    let patch = Patch { at: 0, with: 9 };
    let mut veil = Veil::new(REPLY, 1, patch);
    assert!(rt; !veil.idle());
    assert_eq!(rt; first_wrong(&mut veil, &VEIL), None);
    assert!(rt; veil.idle());
    let mut table = TableGuard::new(table(rt.alloc())?);
    assert_eq!(rt; first_wrong(&mut table, &TABLE), None);
    assert!(rt; !table.idle());
    Ok(())
}
