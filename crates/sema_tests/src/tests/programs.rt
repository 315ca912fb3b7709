// Whole programs, and what ends without `main` or a label.

use super::{End, end_of};
use std::alloc::Global;

/// Line 1, where there is no `main` or no label.
const MISSING: End = End::Fails { rule: 22, line: 1 };

const PROGRAMS: [(&str, End); 13] = [
    ("int main(void) { return 0; }", MISSING),
    ("\n#pragma cle def P {}\nint f(void) { return 0; }", MISSING),
    (
        "#pragma cle def P {}\nint main(int a) { return 0; }",
        MISSING,
    ),
    (
        "#pragma cle def P {}\nlong main(void) { return 0; }",
        MISSING,
    ),
    ("#pragma cle def P {}\nint main(void);", MISSING),
    ("#pragma cle P\nint main(void) { return 0; }", MISSING),
    (
        "#pragma cle def P {}\nint main(void) { return 0; }",
        End::Typed,
    ),
    (
        "#pragma cle def P {}\nint main(void);\nstatic int main() { }",
        End::Typed,
    ),
    (
        "int main(void) {\n#pragma cle def P {}\nreturn 0; }",
        End::Typed,
    ),
    // recursion, and a call as an operand
    (
        "#include <stdio.h>\n#pragma cle def P {\"level\":\"purple\"}\n\
int fact(int n) { if (n < 2) { return 1; } return n * fact(n - 1); }\n\
int main(void) { printf(\"%d\\n\", fact(5)); return 0; }",
        End::Typed,
    ),
    // an array argument
    (
        "#pragma cle def P {}\nvoid fill(int v[3]) {\nfor (int i = 0; i < 3; i++) { v[i] = v[i] + 10 * i; }\n}\n\
int main(void) {\nint w[3] = {7, 7, 7};\nfill(w);\nprintf(\"%d %d %d\\n\", w[0], w[1], w[2]);\nreturn 0;\n}",
        End::Typed,
    ),
    // a prototype, and functions that call each other
    (
        "#pragma cle def P {}\nint even(int n);\nint odd(int n) { return n ? even(n - 1) : 0; }\n\
int even(int n) { return n ? odd(n - 1) : 1; }\n\
int main() { int c = getchar(); while (c != -1) { putchar(c); c = getchar(); } return even(4); }",
        End::Typed,
    ),
    // structs in structs, arrays of structs, array parameters of three dimensions
    (
        "#pragma cle def P {}\nstruct p { short x; short y; };\nstruct l { struct p a; struct p b[2]; };\n\
struct l origin = {{1, 2}, {{3}, {4, 5}}};\n\
long far(struct l a, int w[2][3][4]) { return a.b[1].y * w[1][2][3]; }\n\
int main(void) { int w[2][3][4]; struct l m; m = origin; m.a = m.b[0]; return (int)far(m, w); }",
        End::Typed,
    ),
];

/// The first program that ends otherwise.
fn misjudged(alloc: Global, rows: &[(&'static str, End)]) -> Option<(&'static str, End)> {
    for (source, wanted) in rows {
        let end = end_of(alloc, source);
        if end != *wanted {
            return Some((*source, end));
        }
    }
    None
}

#[test]
fn programs_end_as_they_should(rt: HostRuntime) {
    assert_eq!(rt; misjudged(rt.alloc(), &PROGRAMS), None);
}
