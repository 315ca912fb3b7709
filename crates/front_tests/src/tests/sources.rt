//! Sources and what is found out about them, worked out by hand.

/// Sources that break a rule, with its number and line.
pub(crate) const REFUSED: [(&str, u8, u32); 19] = [
    // a function that names variables of two levels
    (
        r#"#pragma cle def P {"level":"purple"}
#pragma cle def O {"level":"orange"}
#pragma cle P
int p;
#pragma cle O
int o;
int main(void) { p = o; return 0; }
"#,
        24,
        7,
    ),
    // the first of a group by its place; a prototype is none
    (
        r#"#pragma cle def P {"level":"purple"}
#pragma cle def O {"level":"orange"}
int k(void);
#pragma cle P
int p;
#pragma cle O
int o;
int z(void) { return p; }
int k(void) { return o + z(); }
int main(void) { return 0; }
"#,
        24,
        8,
    ),
    // a variable joins two functions
    (
        r#"#pragma cle def P {"level":"purple"}
#pragma cle def O {"level":"orange"}
int y;
#pragma cle P
int p;
#pragma cle O
int o;
void f(void) { y = p; }
void g(void) { y = o; }
int main(void) { return 0; }
"#,
        24,
        3,
    ),
    // an annotated function names a variable of another level
    (
        r#"#pragma cle def P {"level":"purple"}
#pragma cle def O {"level":"orange"}
#pragma cle def F {"level":"purple","cdf":[{"remotelevel":"orange","direction":"bidirectional","guarddirective":{"operation":"allow"},"argtaints":[],"codtaints":[],"rettaints":[]}]}
#pragma cle O
int x;
#pragma cle F
void f(void) { x = 1; }
int main(void) { f(); return 0; }
"#,
        25,
        7,
    ),
    // no level
    (
        r#"int main(void) { return 0; }
"#,
        22,
        1,
    ),
    // a byte that stands nowhere
    (
        "#pragma cle def P {\"level\":\"purple\"}\n\x07\nint main(void) { return 0; }\n",
        2,
        2,
    ),
    // an item without a reading
    (
        r#"#pragma cle def P {"level":"purple"}
int a
int main(void) { return 0; }
"#,
        6,
        2,
    ),
    // a pointer
    (
        r#"#pragma cle def P {"level":"purple"}
int *p;
int main(void) { return 0; }
"#,
        8,
        2,
    ),
    // a name that is not declared
    (
        r#"#pragma cle def P {"level":"purple"}
int f(void) { return x; }
int main(void) { return 0; }
"#,
        18,
        2,
    ),
    // a definition that is not JSON
    (
        r#"#pragma cle def P {"level":"purple"}
#pragma cle def Q {
int main(void) { return 0; }
"#,
        10,
        2,
    ),
    // a label that is not shareable
    (
        r#"#include <stdio.h>
#pragma cle def PURPLE {"level":"purple"}
#pragma cle def ORANGE {"level":"orange"}
#pragma cle def RESP {"level":"purple"}
#pragma cle def GETA {"level":"orange","cdf":[{"remotelevel":"purple","direction":"bidirectional","guarddirective":{"operation":"allow"},"argtaints":[],"codtaints":["ORANGE"],"rettaints":["ORANGE"]}]}
#pragma cle ORANGE
int a;
#pragma cle GETA
int get_a(void) {
  a = a + 1;
  return a;
}
int main(void) {
  for (int i = 0; i < 3; i++) {
    printf("%d\n", get_a());
  }
  return 0;
}
"#,
        35,
        5,
    ),
    // an entry for the label's own level alone
    (
        r#"#include <stdio.h>
#pragma cle def PURPLE {"level":"purple"}
#pragma cle def ORANGE {"level":"orange"}
#pragma cle def RESP {"level":"purple"}
#pragma cle def GETA {"level":"orange","cdf":[{"remotelevel":"orange","direction":"bidirectional","guarddirective":{"operation":"allow"},"argtaints":[],"codtaints":["ORANGE"],"rettaints":["ORANGE"]}]}
#pragma cle ORANGE
int a;
#pragma cle GETA
int get_a(void) {
  a = a + 1;
  return a;
}
int main(void) {
  for (int i = 0; i < 3; i++) {
    printf("%d\n", get_a());
  }
  return 0;
}
"#,
        26,
        15,
    ),
    // an entry that lets no call in
    (
        r#"#include <stdio.h>
#pragma cle def PURPLE {"level":"purple"}
#pragma cle def ORANGE {"level":"orange"}
#pragma cle def RESP {"level":"purple"}
#pragma cle def GETA {"level":"orange","cdf":[{"remotelevel":"purple","direction":"ingress","guarddirective":{"operation":"allow"},"argtaints":[],"codtaints":["ORANGE"],"rettaints":["RESP"]}]}
#pragma cle ORANGE
int a;
#pragma cle GETA
int get_a(void) {
  a = a + 1;
  return a;
}
int main(void) {
  for (int i = 0; i < 3; i++) {
    printf("%d\n", get_a());
  }
  return 0;
}
"#,
        27,
        15,
    ),
    // two levels that call each other
    (
        r#"#pragma cle def P {"level":"purple","cdf":[{"remotelevel":"orange","direction":"bidirectional","guarddirective":{"operation":"allow"},"argtaints":[[]],"codtaints":[],"rettaints":[]}]}
#pragma cle def O {"level":"orange","cdf":[{"remotelevel":"purple","direction":"bidirectional","guarddirective":{"operation":"allow"},"argtaints":[[]],"codtaints":[],"rettaints":[]}]}
#pragma cle P
void p(int n);
#pragma cle O
void o(int n) { if (n > 0) { p(n - 1); } }
#pragma cle P
void p(int n) { o(n); }
int main(void) { p(1); return 0; }
"#,
        28,
        8,
    ),
    // an array that is passed twice
    (
        r#"#pragma cle def P {"level":"purple"}
#pragma cle def FILL {"level":"orange","cdf":[{"remotelevel":"purple","direction":"bidirectional","guarddirective":{"operation":"allow"},"argtaints":[[],[]],"codtaints":[],"rettaints":[]}]}
#pragma cle FILL
void fill(int v[3], int q[3]) {
for (int i = 0; i < 3; i++) { v[i] = v[i] + 10 * i; }
}
int main(void) {
int w[3] = {7, 7, 7};
fill(w, w);
printf("%d %d %d\n", w[0], w[1], w[2]);
return 0;
}
"#,
        29,
        9,
    ),
    // an array of static duration that the callee names
    (
        r#"#pragma cle def P {"level":"purple"}
int g[2];
void h(int v[2]) { v[0] = g[1]; }
int main(void) { h(g); return 0; }
"#,
        29,
        4,
    ),
    // one that the callee's callee names
    (
        r#"#pragma cle def P {"level":"purple"}
int g[2];
void in(void) { g[0] = 1; }
void h(int v[2]) { in(); v[1] = 2; }
int main(void) { h(g); return 0; }
"#,
        29,
        5,
    ),
    // a payload of one byte too many
    (
        r#"#pragma cle def P {"level":"purple"}
#pragma cle def FILL {"level":"orange","cdf":[{"remotelevel":"purple","direction":"bidirectional","guarddirective":{"operation":"allow"},"argtaints":[[]],"codtaints":[],"rettaints":[]}]}
#pragma cle FILL
void fill(unsigned char v[4097]) {
for (int i = 0; i < 3; i++) { v[i] = v[i] + 10 * i; }
}
int main(void) {
unsigned char w[4097];
fill(w);
printf("%d %d %d\n", w[0], w[1], w[2]);
return 0;
}
"#,
        30,
        4,
    ),
    // an earlier rule at a later line
    (
        r#"#pragma cle def P {"level":"purple"}
int g[2];
void h(int v[2]) { v[0] = g[1]; }
int main(void) { h(g); return x; }
"#,
        18,
        4,
    ),
];

/// Sources that are accepted, with their rows: the numbers of the levels of caller and callee, the function, the bytes of
/// a request and of a reply.
pub(crate) const ACCEPTED: [(&str, &str); 8] = [
    // no call across levels
    (
        r#"#pragma cle def P {"level":"purple"}
int main(void) { return 0; }
"#,
        "",
    ),
    // a call across levels
    (
        r#"#include <stdio.h>
#pragma cle def PURPLE {"level":"purple"}
#pragma cle def ORANGE {"level":"orange"}
#pragma cle def RESP {"level":"purple"}
#pragma cle def GETA {"level":"orange","cdf":[{"remotelevel":"purple","direction":"bidirectional","guarddirective":{"operation":"allow"},"argtaints":[],"codtaints":["ORANGE"],"rettaints":["RESP"]}]}
#pragma cle ORANGE
int a;
#pragma cle GETA
int get_a(void) {
  a = a + 1;
  return a;
}
int main(void) {
  for (int i = 0; i < 3; i++) {
    printf("%d\n", get_a());
  }
  return 0;
}
"#,
        "0 1 get_a 0 4;",
    ),
    // an array goes there and back
    (
        r#"#pragma cle def P {"level":"purple"}
#pragma cle def FILL {"level":"orange","cdf":[{"remotelevel":"purple","direction":"bidirectional","guarddirective":{"operation":"allow"},"argtaints":[[]],"codtaints":[],"rettaints":[]}]}
#pragma cle FILL
void fill(int v[3]) {
for (int i = 0; i < 3; i++) { v[i] = v[i] + 10 * i; }
}
int main(void) {
int w[3] = {7, 7, 7};
fill(w);
printf("%d %d %d\n", w[0], w[1], w[2]);
return 0;
}
"#,
        "0 1 fill 12 12;",
    ),
    // the widest payload
    (
        r#"#pragma cle def P {"level":"purple"}
#pragma cle def FILL {"level":"orange","cdf":[{"remotelevel":"purple","direction":"bidirectional","guarddirective":{"operation":"allow"},"argtaints":[[]],"codtaints":[],"rettaints":[]}]}
#pragma cle FILL
void fill(unsigned char v[4096]) {
for (int i = 0; i < 3; i++) { v[i] = v[i] + 10 * i; }
}
int main(void) {
unsigned char w[4096];
fill(w);
printf("%d %d %d\n", w[0], w[1], w[2]);
return 0;
}
"#,
        "0 1 fill 4096 4096;",
    ),
    // recursion within a level
    (
        r#"#pragma cle def P {"level":"purple"}
int fact(int n) { if (n < 2) { return 1; } return n * fact(n - 1); }
int main(void) { return fact(5); }
"#,
        "",
    ),
    // rows are sorted by levels and function
    (
        r#"#pragma cle def A {"level":"red"}
#pragma cle def B {"level":"green","cdf":[{"remotelevel":"red","direction":"bidirectional","guarddirective":{"operation":"allow"},"argtaints":[],"codtaints":[],"rettaints":[]}]}
#pragma cle def C {"level":"blue","cdf":[{"remotelevel":"red","direction":"bidirectional","guarddirective":{"operation":"allow"},"argtaints":[],"codtaints":[],"rettaints":[]},{"remotelevel":"green","direction":"bidirectional","guarddirective":{"operation":"allow"},"argtaints":[],"codtaints":[],"rettaints":[]}]}
#pragma cle C
void last(void) { }
#pragma cle B
void next(void) { last(); }
int main(void) { last(); next(); return 0; }
"#,
        "0 1 next 0 0;0 2 last 0 0;1 2 last 0 0;",
    ),
    // a struct by its members
    (
        r#"#pragma cle def P {"level":"purple"}
#pragma cle def R {"level":"orange","cdf":[{"remotelevel":"purple","direction":"bidirectional","guarddirective":{"operation":"allow"},"argtaints":[[]],"codtaints":[],"rettaints":[]}]}
struct r { unsigned char c; long n; short h[2]; };
#pragma cle R
void put(struct r v) { v.c = 1; }
int main(void) { struct r x; put(x); return 0; }
"#,
        "0 1 put 13 0;",
    ),
    // an array of static duration that is not named behind the call
    (
        r#"#pragma cle def P {"level":"purple"}
int g[2];
int s;
void h(int v[2]) { s = v[0]; }
int main(void) { h(g); return 0; }
"#,
        "",
    ),
];

/// Sources with the levels of their functions, of their objects and of `main`.
pub(crate) const LEVELS: [(&str, &str); 7] = [
    // a function of another level isn't tied to its caller
    (
        r#"#pragma cle def PURPLE {"level":"purple"}
#pragma cle def ORANGE {"level":"orange"}
#pragma cle def RESP {"level":"purple"}
#pragma cle def GETA {"level":"orange","cdf":[{"remotelevel":"purple","direction":"bidirectional","guarddirective":{"operation":"allow"},"argtaints":[],"codtaints":["ORANGE"],"rettaints":["RESP"]}]}
#pragma cle ORANGE
int a;
#pragma cle GETA
int get_a(void) { a = a + 1; return a; }
int main(void) { return get_a(); }
"#,
        "1,0 1 0",
    ),
    // an unannotated variable goes with the function that names it
    (
        r#"#pragma cle def P {"level":"purple"}
#pragma cle def O {"level":"orange"}
#pragma cle O
int x;
int y;
void f(void) { x = 1; y = 2; }
int main(void) { return 0; }
"#,
        "1,0 1,1 0",
    ),
    // what has no ties has the level of `main`
    (
        r#"#pragma cle def P {"level":"purple"}
#pragma cle def O {"level":"orange"}
#pragma cle O
int x;
int z;
static int g(void) { return 0; }
int main(void) { x = 1; return 0; }
"#,
        "1,1 1,1 1",
    ),
    // a chain of calls
    (
        r#"#pragma cle def P {"level":"purple"}
#pragma cle def O {"level":"orange"}
#pragma cle O
int x;
int h(void) { return x; }
int k(void) { return h(); }
int main(void) { return k(); }
"#,
        "1,1,1 1 1",
    ),
    // the declaration of a static local names it
    (
        r#"#pragma cle def P {"level":"purple"}
#pragma cle def O {"level":"orange"}
#pragma cle O
int x;
void f(void) { static int n; x = 1; }
int main(void) { return 0; }
"#,
        "1,0 1,1 0",
    ),
    // a local hides a variable of the file
    (
        r#"#pragma cle def P {"level":"purple"}
#pragma cle def O {"level":"orange"}
#pragma cle O
int x;
int main(void) { int x = 1; return x; }
"#,
        "0 1 0",
    ),
    // a name behind the block of a local of the same name
    (
        r#"#pragma cle def P {"level":"purple"}
#pragma cle def O {"level":"orange"}
#pragma cle O
int x;
int main(void) { { int x = 1; x = 2; } return x; }
"#,
        "1 1 1",
    ),
];
