// What is kept of a program: functions and objects of static duration, in the order of the source.

use super::{End, typed};
use cl_mean::checked::{FnFact, ObjFact, Typed};
use sqlite_items::Items;
use std::alloc::{AllocError, Global};
use std::test::Fail;

const SOURCE: &str = "#pragma cle def P {}
int a, b[2];
struct s { int n; };
int f(void);
int
f(void) {
  static long c;
  if (a) { static struct s d; }
  return 0;
}
int main(void) { static int e, g; int h; return 0; }
int z;
";

/// Each function's name, item and line.
const FUNCTIONS: &str = "f 4 6; main 5 11; ";

/// Each object's name, its function's number, its item and its line.
const OBJECTS: &str =
    "a None 1 2; b None 1 2; c Some(0) 4 7; d Some(0) 4 8; e Some(1) 5 11; g Some(1) 5 11; \
z None 6 12; ";

/// The facts of a program, without the program.
#[derive(Drop)]
struct Facts {
    functions: Items<FnFact>,
    objects: Items<ObjFact>,
}

fn facts_of(alloc: Global, source: &str) -> Result<Facts, End> {
    let Typed {
        program: _,
        functions,
        objects,
    } = typed(alloc, source)?;
    Ok(Facts { functions, objects })
}

fn functions_shown(alloc: Global, functions: &[FnFact]) -> Result<String, AllocError> {
    let mut text = String::new(alloc);
    for f in functions {
        let name = f.name.text();
        let row = format!(in alloc; "{name} {} {}; ", f.item, f.line)?;
        text.push_str(row.as_str())?;
    }
    Ok(text)
}

fn objects_shown(alloc: Global, objects: &[ObjFact]) -> Result<String, AllocError> {
    let mut text = String::new(alloc);
    for o in objects {
        let name = o.name.text();
        let row = format!(in alloc; "{name} {:?} {} {}; ", o.owner, o.item, o.line)?;
        text.push_str(row.as_str())?;
    }
    Ok(text)
}

#[test]
fn functions_and_objects_are_kept(rt: HostRuntime) -> Result<(), Fail> {
    let alloc = rt.alloc();
    let Ok(facts) = facts_of(alloc, SOURCE) else {
        assert!(rt; false, "typed");
        return Ok(());
    };
    let functions = functions_shown(alloc, facts.functions.as_slice())?;
    let objects = objects_shown(alloc, facts.objects.as_slice())?;
    assert_eq!(rt; functions.as_str(), FUNCTIONS);
    assert_eq!(rt; objects.as_str(), OBJECTS);
    Ok(())
}
