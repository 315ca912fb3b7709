//! Sources, and what `check` says of them.

use super::{Case, LEVEL, PLAIN, check};
use cl_job::status::Status;
use std::test::Fail;

/// The lines of the counter before its function.
const COUNTER: &str = r#"#include <stdio.h>
#pragma cle def PURPLE {"level":"purple"}
#pragma cle def ORANGE {"level":"orange"}
#pragma cle def RESP {"level":"purple"}
#pragma cle def GETA {"level":"orange","cdf":[{"remotelevel":"purple","direction":"bidirectional","guarddirective":{"operation":"allow"},"argtaints":[],"codtaints":["ORANGE"],"rettaints":["RESP"]}]}
#pragma cle ORANGE
int a;
#pragma cle GETA
"#;

/// The counter from its function on.
const GET: &str = r#"int get_a(void) {
  a = a + 1;
  return a;
}
int main(void) {
  for (int i = 0; i < 3; i++) {
    printf("%d\n", get_a());
  }
  return 0;
}
"#;

/// What `check` says of the counter.
const LISTED: &[u8] = b"accepted
level purple functions 1 globals 0
level orange functions 1 globals 1
call purple orange get_a request 0 reply 4
";

/// A check of a source of one level.
const CHECK: Case<'static> = Case {
    line: "check a.c",
    ..PLAIN
};

/// A check of the counter.
const CHECK_COUNTER: Case<'static> = Case {
    head: COUNTER,
    body: GET,
    ..CHECK
};

/// Sources that are accepted, and what a put or a read that fails leaves.
const ACCEPTED: [Case<'static>; 8] = [
    Case {
        out: LISTED,
        ..CHECK_COUNTER
    },
    // The text is one put, so that the second doesn't come.
    Case {
        out_fails: (2, 0),
        out: LISTED,
        ..CHECK_COUNTER
    },
    Case {
        out_fails: (1, 11),
        out: b"accepted\nle",
        err: "closure: cannot write standard output\n",
        status: Status::WriteFault,
        ..CHECK_COUNTER
    },
    Case {
        out_room: 5,
        out: b"accep",
        err: "closure: cannot write standard output\n",
        status: Status::WriteFault,
        ..CHECK_COUNTER
    },
    Case {
        body: "int main(void) { }",
        out: b"accepted\nlevel purple functions 1 globals 0\n",
        ..CHECK
    },
    // Static locals count.
    Case {
        body: "int g, h;
int main(void) { static int n; { static long m[2]; n = n + g + m[1]; } return n; }
",
        out: b"accepted\nlevel purple functions 1 globals 4\n",
        ..CHECK
    },
    // A function that is declared and not defined doesn't count; recursion within a level is no cycle.
    Case {
        body: "int idle(int n);
int fact(int n) { if (n < 2) { return 1; } return n * fact(n - 1); }
int main(void) { printf(\"%d\\n\", fact(5)); return 0; }
",
        out: b"accepted\nlevel purple functions 2 globals 0\n",
        ..CHECK
    },
    // The widest payloads.
    Case {
        body: FILL,
        out: b"accepted
level purple functions 1 globals 0
level orange functions 1 globals 0
call purple orange fill request 4096 reply 4096
",
        ..CHECK
    },
];

/// `fill` at another level is lent the bytes.
const FILL: &str =
    r#"#pragma cle def FILL {"level":"orange","cdf":[{"remotelevel":"purple","direction":"bidirectional","guarddirective":{"operation":"allow"},"argtaints":[[]],"codtaints":[],"rettaints":[]}]}
#pragma cle FILL
void fill(unsigned char v[4096]) {
  v[0] = v[0] + 10;
}
int main(void) {
  unsigned char w[4096];
  fill(w);
  return w[0];
}
"#;

#[test]
fn accepted_sources_are_listed(rt: HostRuntime) -> Result<(), Fail> {
    for case in &ACCEPTED {
        check(&rt, rt.alloc(), case)?;
    }
    Ok(())
}

/// Sources, each with the text of the first rule that fails.
const REFUSED: [(&str, &str, &str); 9] = [
    (
        "",
        "int main(void) { return 0; }\n",
        "closure: E22 at 1: no main or no level\n",
    ),
    (
        LEVEL,
        "int main(void) { return x; }\n",
        "closure: E18 at 2: unknown name\n",
    ),
    (LEVEL, "@", "closure: E03 at 2: no token\n"),
    (
        LEVEL,
        "#pragma cle def Q {\nint main(void) { return 0; }\n",
        "closure: E10 at 2: not JSON\n",
    ),
    (
        LEVEL,
        r#"#pragma cle def O {"level":"orange"}
#pragma cle P
int x;
#pragma cle O
int y;
int main(void) { x = y; return 0; }
"#,
        "closure: E24 at 7: two levels\n",
    ),
    (
        LEVEL,
        r#"#pragma cle def O {"level":"orange"}
#pragma cle def F {"level":"purple","cdf":[{"remotelevel":"orange","direction":"bidirectional","guarddirective":{"operation":"allow"},"argtaints":[],"codtaints":[],"rettaints":[]}]}
#pragma cle O
int x;
#pragma cle F
void f(void) { x = 1; }
int main(void) { f(); return 0; }
"#,
        "closure: E25 at 7: foreign global\n",
    ),
    (
        "",
        r#"#pragma cle def P {"level":"purple","cdf":[{"remotelevel":"orange","direction":"bidirectional","guarddirective":{"operation":"allow"},"argtaints":[[]],"codtaints":[],"rettaints":[]}]}
#pragma cle def O {"level":"orange","cdf":[{"remotelevel":"purple","direction":"bidirectional","guarddirective":{"operation":"allow"},"argtaints":[[]],"codtaints":[],"rettaints":[]}]}
#pragma cle P
void p(int n);
#pragma cle O
void o(int n) { if (n > 0) { p(n - 1); } }
#pragma cle P
void p(int n) { o(n); }
int main(void) { p(1); return 0; }
"#,
        "closure: E28 at 8: cycle of levels\n",
    ),
    (
        LEVEL,
        "int g[2];
void h(int v[2]) { v[0] = g[1]; }
int main(void) { h(g); return 0; }
",
        "closure: E29 at 4: array aliased\n",
    ),
    (
        LEVEL,
        r#"#pragma cle def FILL {"level":"orange","cdf":[{"remotelevel":"purple","direction":"bidirectional","guarddirective":{"operation":"allow"},"argtaints":[[]],"codtaints":[],"rettaints":[]}]}
#pragma cle FILL
void fill(unsigned char v[4097]) {
}
int main(void) {
  unsigned char w[4097];
  fill(w);
  return 0;
}
"#,
        "closure: E30 at 4: payload too wide\n",
    ),
];

#[test]
fn refused_sources_name_the_rule(rt: HostRuntime) -> Result<(), Fail> {
    for row in &REFUSED {
        let (head, body, err) = *row;
        let case = Case {
            head,
            body,
            err,
            status: Status::Refused,
            ..CHECK
        };
        check(&rt, rt.alloc(), &case)?;
    }
    Ok(())
}
