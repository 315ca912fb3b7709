//! Sources whose data carries labels, and what is found out about them, worked out by hand.

/// Sources in which a label comes where it isn't admitted, with the rule and line.
pub(crate) const CARRIED: [(&str, u8, u32); 60] = [
    // two labels of one level
    (
        r#"#pragma cle def P {"level":"purple"}
#pragma cle def Q {"level":"purple"}
#pragma cle P
int x;
#pragma cle Q
int y;
int main(void) { x = y; return 0; }
"#,
        32,
        4,
    ),
    // a label that the list for the code lacks
    (
        r#"#include <stdio.h>
#pragma cle def PURPLE {"level":"purple"}
#pragma cle def ORANGE {"level":"orange"}
#pragma cle def RESP {"level":"purple"}
#pragma cle def GETA {"level":"orange","cdf":[{"remotelevel":"purple","direction":"bidirectional","guarddirective":{"operation":"allow"},"argtaints":[],"codtaints":[],"rettaints":["RESP"]}]}
#pragma cle ORANGE
int a;
#pragma cle GETA
int get_a(void) {
  a = a + 1;
  return a;
}
int main(void) {
  for (int i = 0; i < 3; i++) {
    printf("%d\n", get_a());
  }
  return 0;
}
"#,
        33,
        10,
    ),
    // an argument of `printf` with a label of another level
    (
        r#"#include <stdio.h>
#pragma cle def PURPLE {"level":"purple"}
#pragma cle def ORANGE {"level":"orange","cdf":[{"remotelevel":"purple","direction":"egress","guarddirective":{"operation":"allow"}}]}
#pragma cle def RESP {"level":"purple"}
#pragma cle def GETA {"level":"orange","cdf":[{"remotelevel":"purple","direction":"bidirectional","guarddirective":{"operation":"allow"},"argtaints":[],"codtaints":["ORANGE"],"rettaints":["ORANGE"]}]}
#pragma cle ORANGE
int a;
#pragma cle GETA
int get_a(void) {
  a = a + 1;
  return a;
}
int main(void) {
  for (int i = 0; i < 3; i++) {
    printf("%d\n", get_a());
  }
  return 0;
}
"#,
        34,
        15,
    ),
    // an argument without a taint
    (
        r#"#include <stdio.h>
#pragma cle def PURPLE {"level":"purple"}
#pragma cle def ORANGE {"level":"orange"}
#pragma cle def RESP {"level":"purple"}
#pragma cle def GETA {"level":"orange","cdf":[{"remotelevel":"purple","direction":"bidirectional","guarddirective":{"operation":"allow"},"argtaints":[[]],"codtaints":["ORANGE"],"rettaints":["RESP"]}]}
#pragma cle ORANGE
int a;
#pragma cle GETA
int get_a(int x) {
  a = a + 1;
  return a;
}
int main(void) {
  for (int i = 0; i < 3; i++) {
    printf("%d\n", get_a(getchar()));
  }
  return 0;
}
"#,
        31,
        15,
    ),
    // labels of one level
    (
        r#"// E32 at 5
#pragma cle def P {"level":"purple"}
#pragma cle def Q {"level":"purple"}
#pragma cle P
int x;
#pragma cle Q
int y;
int main(void) { x = y; return 0; }
"#,
        32,
        5,
    ),
    // through a call and an array that a callee fills
    (
        r#"// E32 at 5
#pragma cle def P {"level":"purple"}
#pragma cle def Q {"level":"purple"}
#pragma cle P
int x;
#pragma cle Q
int y;
void fill(int b[2]) { b[0] = y; }
int main(void) { int a[2]; fill(a); x = a[1]; return 0; }
"#,
        32,
        5,
    ),
    // an argument
    (
        r#"// E31 at 10
#pragma cle def P {"level":"purple"}
#pragma cle def Q {"level":"purple"}
#pragma cle def F {"level":"purple","cdf":[{"remotelevel":"purple","direction":"bidirectional","guarddirective":{"operation":"allow"},"argtaints":[["P"]],"codtaints":[],"rettaints":[]}]}
#pragma cle Q
int y;
#pragma cle F
void f(int v) { }
int main(void) {
  f(y);
  return 0;
}
"#,
        31,
        10,
    ),
    // a right operand
    (
        r#"#pragma cle def P {"level":"purple"}
#pragma cle def Q {"level":"purple"}
#pragma cle P
int x;
#pragma cle Q
int y;
int main(void) { x = 1 + y; return 0; }
"#,
        32,
        4,
    ),
    // a left operand
    (
        r#"#pragma cle def P {"level":"purple"}
#pragma cle def Q {"level":"purple"}
#pragma cle P
int x;
#pragma cle Q
int y;
int main(void) { x = y * 2; return 0; }
"#,
        32,
        4,
    ),
    // a cast
    (
        r#"#pragma cle def P {"level":"purple"}
#pragma cle def Q {"level":"purple"}
#pragma cle P
int x;
#pragma cle Q
int y;
int main(void) { x = (short)y; return 0; }
"#,
        32,
        4,
    ),
    // an operator of one operand
    (
        r#"#pragma cle def P {"level":"purple"}
#pragma cle def Q {"level":"purple"}
#pragma cle P
int x;
#pragma cle Q
int y;
int main(void) { x = -y; return 0; }
"#,
        32,
        4,
    ),
    // the condition of `?:`
    (
        r#"#pragma cle def P {"level":"purple"}
#pragma cle def Q {"level":"purple"}
#pragma cle P
int x;
#pragma cle Q
int y;
int main(void) { x = y ? 1 : 2; return 0; }
"#,
        32,
        4,
    ),
    // its second operand
    (
        r#"#pragma cle def P {"level":"purple"}
#pragma cle def Q {"level":"purple"}
#pragma cle P
int x;
#pragma cle Q
int y;
int main(void) { x = 1 ? y : 2; return 0; }
"#,
        32,
        4,
    ),
    // its third operand
    (
        r#"#pragma cle def P {"level":"purple"}
#pragma cle def Q {"level":"purple"}
#pragma cle P
int x;
#pragma cle Q
int y;
int main(void) { x = 1 ? 2 : y; return 0; }
"#,
        32,
        4,
    ),
    // an operand of `&&`
    (
        r#"#pragma cle def P {"level":"purple"}
#pragma cle def Q {"level":"purple"}
#pragma cle P
int x;
#pragma cle Q
int y;
int main(void) { x = 1 && y; return 0; }
"#,
        32,
        4,
    ),
    // an operand of a comparison
    (
        r#"#pragma cle def P {"level":"purple"}
#pragma cle def Q {"level":"purple"}
#pragma cle P
int x;
#pragma cle Q
int y;
int main(void) { x = y < 1; return 0; }
"#,
        32,
        4,
    ),
    // brackets
    (
        r#"#pragma cle def P {"level":"purple"}
#pragma cle def Q {"level":"purple"}
#pragma cle P
int x;
#pragma cle Q
int y;
int main(void) { x = (y); return 0; }
"#,
        32,
        4,
    ),
    // the index of a read
    (
        r#"#pragma cle def P {"level":"purple"}
#pragma cle def Q {"level":"purple"}
#pragma cle P
int x;
#pragma cle Q
int y;
int main(void) { int t[2]; x = t[y]; return 0; }
"#,
        32,
        4,
    ),
    // an initialiser
    (
        r#"#pragma cle def P {"level":"purple"}
#pragma cle def Q {"level":"purple"}
#pragma cle P
int x;
#pragma cle Q
int y;
int main(void) { int t = y; x = t; return 0; }
"#,
        32,
        4,
    ),
    // an initialiser of many
    (
        r#"#pragma cle def P {"level":"purple"}
#pragma cle def Q {"level":"purple"}
#pragma cle P
int x;
#pragma cle Q
int y;
int main(void) { int t[2] = {0, y}; x = t[0]; return 0; }
"#,
        32,
        4,
    ),
    // a store into an element
    (
        r#"#pragma cle def P {"level":"purple"}
#pragma cle def Q {"level":"purple"}
#pragma cle P
int x;
#pragma cle Q
int y;
int main(void) { int t[2]; t[0] = y; x = t[1]; return 0; }
"#,
        32,
        4,
    ),
    // a store with an operator
    (
        r#"#pragma cle def P {"level":"purple"}
#pragma cle def Q {"level":"purple"}
#pragma cle P
int x;
#pragma cle Q
int y;
int main(void) { int t = 0; t += y; x = t; return 0; }
"#,
        32,
        4,
    ),
    // the first part of a loop
    (
        r#"#pragma cle def P {"level":"purple"}
#pragma cle def Q {"level":"purple"}
#pragma cle P
int x;
#pragma cle Q
int y;
int main(void) { for (int t = y; t < 2; t++) { x = t; } return 0; }
"#,
        32,
        4,
    ),
    // the last part of a loop
    (
        r#"#pragma cle def P {"level":"purple"}
#pragma cle def Q {"level":"purple"}
#pragma cle P
int x;
#pragma cle Q
int y;
int main(void) { int t = 0; for (int k = 0; k < 2; t = y) { k = k + 1; } x = t; return 0; }
"#,
        32,
        4,
    ),
    // against the order of the source
    (
        r#"#pragma cle def P {"level":"purple"}
#pragma cle def Q {"level":"purple"}
#pragma cle P
int x;
#pragma cle Q
int y;
int main(void) { int a; int b; int c; x = a; a = b; b = c; c = y; return 0; }
"#,
        32,
        4,
    ),
    // an element
    (
        r#"#pragma cle def P {"level":"purple"}
#pragma cle def Q {"level":"purple"}
#pragma cle P
int x;
#pragma cle Q
int y[2];
int main(void) { x = y[1]; return 0; }
"#,
        32,
        4,
    ),
    // a member
    (
        r#"#pragma cle def P {"level":"purple"}
#pragma cle def Q {"level":"purple"}
struct s { int m; int n; };
#pragma cle P
int x;
#pragma cle Q
struct s y;
int main(void) { x = y.m; return 0; }
"#,
        32,
        5,
    ),
    // a store into a member
    (
        r#"#pragma cle def P {"level":"purple"}
#pragma cle def Q {"level":"purple"}
struct s { int m; int n; };
#pragma cle P
int x;
#pragma cle Q
int y;
int main(void) { struct s t; t.m = y; x = t.n; return 0; }
"#,
        32,
        5,
    ),
    // copies of structs
    (
        r#"#pragma cle def P {"level":"purple"}
#pragma cle def Q {"level":"purple"}
struct s { int m; int n; };
#pragma cle P
int x;
#pragma cle Q
struct s y;
int main(void) { struct s t; struct s u; t = y; u = t; x = u.m; return 0; }
"#,
        32,
        5,
    ),
    // a parameter
    (
        r#"#pragma cle def P {"level":"purple"}
#pragma cle def Q {"level":"purple"}
#pragma cle P
int x;
#pragma cle Q
int y;
void f(int p) { x = p; }
int main(void) { f(y); return 0; }
"#,
        32,
        4,
    ),
    // a second parameter
    (
        r#"#pragma cle def P {"level":"purple"}
#pragma cle def Q {"level":"purple"}
#pragma cle P
int x;
#pragma cle Q
int y;
void f(int a, int p) { x = p; }
int main(void) { f(1, y); return 0; }
"#,
        32,
        4,
    ),
    // a result
    (
        r#"#pragma cle def P {"level":"purple"}
#pragma cle def Q {"level":"purple"}
#pragma cle P
int x;
#pragma cle Q
int y;
int f(void) { return y; }
int main(void) { x = f(); return 0; }
"#,
        32,
        4,
    ),
    // three results
    (
        r#"#pragma cle def P {"level":"purple"}
#pragma cle def Q {"level":"purple"}
#pragma cle P
int x;
#pragma cle Q
int y;
int f(void) { return y; }
int g(void) { return f(); }
int h(void) { return g(); }
int main(void) { x = h(); return 0; }
"#,
        32,
        4,
    ),
    // an array that is passed on
    (
        r#"#pragma cle def P {"level":"purple"}
#pragma cle def Q {"level":"purple"}
#pragma cle P
int x;
#pragma cle Q
int y;
void fill(int b[2]) { b[0] = y; }
void pass(int c[2]) { fill(c); }
int main(void) { int a[2]; pass(a); x = a[1]; return 0; }
"#,
        32,
        4,
    ),
    // recursion
    (
        r#"#pragma cle def P {"level":"purple"}
#pragma cle def Q {"level":"purple"}
#pragma cle P
int x;
#pragma cle Q
int y;
int f(int n) { if (n) { return f(n - 1); } return y; }
int main(void) { x = f(2); return 0; }
"#,
        32,
        4,
    ),
    // a parameter of a call of itself
    (
        r#"#pragma cle def P {"level":"purple"}
#pragma cle def Q {"level":"purple"}
#pragma cle P
int x;
#pragma cle Q
int y;
void f(int n, int p) { if (n) { f(p, n); return; } x = p; }
int main(void) { f(y, 1); return 0; }
"#,
        32,
        4,
    ),
    // a variable of static duration without a label
    (
        r#"#pragma cle def P {"level":"purple"}
#pragma cle P
int x;
int u;
int main(void) { x = u; return 0; }
"#,
        32,
        3,
    ),
    // `getchar`
    (
        r#"#include <stdio.h>
#pragma cle def P {"level":"purple"}
#pragma cle P
int x;
int main(void) { x = getchar(); return 0; }
"#,
        32,
        4,
    ),
    // the second of two variables
    (
        r#"#pragma cle def P {"level":"purple"}
#pragma cle def Q {"level":"purple"}
#pragma cle P
int x;
#pragma cle Q
int y;
int main(void) { y = x; return 0; }
"#,
        32,
        6,
    ),
    // the first of two places
    (
        r#"#pragma cle def P {"level":"purple"}
#pragma cle def Q {"level":"purple"}
#pragma cle P
int x;
#pragma cle Q
int y;
int main(void) { y = x; x = y; return 0; }
"#,
        32,
        4,
    ),
    // an argument that is a parameter
    (
        r#"#pragma cle def P {"level":"purple"}
#pragma cle def Q {"level":"purple"}
#pragma cle def F {"level":"purple","cdf":[{"remotelevel":"purple","direction":"bidirectional","guarddirective":{"operation":"allow"},"argtaints":[["P"]],"codtaints":[],"rettaints":[]}]}
#pragma cle Q
int y;
#pragma cle F
void f(int v) { }
void g(int q) {
  f(q);
}
int main(void) { g(y); return 0; }
"#,
        31,
        9,
    ),
    // a second argument
    (
        r#"#pragma cle def P {"level":"purple"}
#pragma cle def Q {"level":"purple"}
#pragma cle def F {"level":"purple","cdf":[{"remotelevel":"purple","direction":"bidirectional","guarddirective":{"operation":"allow"},"argtaints":[["Q"],["P"]],"codtaints":[],"rettaints":[]}]}
#pragma cle Q
int y;
#pragma cle F
void f(int v, int w) { }
int main(void) {
  f(y, y);
  return 0;
}
"#,
        31,
        9,
    ),
    // an array as an argument
    (
        r#"#pragma cle def P {"level":"purple"}
#pragma cle def Q {"level":"purple"}
#pragma cle def F {"level":"purple","cdf":[{"remotelevel":"purple","direction":"bidirectional","guarddirective":{"operation":"allow"},"argtaints":[["P"]],"codtaints":[],"rettaints":[]}]}
#pragma cle Q
int y;
#pragma cle F
void f(int v[2]) { }
int main(void) {
  int a[2] = {0, y};
  f(a);
  return 0;
}
"#,
        31,
        10,
    ),
    // of the other lists of the callee, not of the parameter
    (
        r#"#pragma cle def P {"level":"purple"}
#pragma cle def Q {"level":"purple"}
#pragma cle def F {"level":"purple","cdf":[{"remotelevel":"purple","direction":"bidirectional","guarddirective":{"operation":"allow"},"argtaints":[[]],"codtaints":["Q"],"rettaints":["Q"]}]}
#pragma cle Q
int y;
#pragma cle F
int f(int v) { return v; }
int main(void) {
  f(y);
  return 0;
}
"#,
        31,
        9,
    ),
    // E31 before an earlier line of E32
    (
        r#"#pragma cle def P {"level":"purple"}
#pragma cle def Q {"level":"purple"}
#pragma cle P
int x;
#pragma cle Q
int y;
#pragma cle def F {"level":"purple","cdf":[{"remotelevel":"purple","direction":"bidirectional","guarddirective":{"operation":"allow"},"argtaints":[[]],"codtaints":[],"rettaints":[]}]}
#pragma cle F
void f(int v) { }
int main(void) {
  x = y;
  f(y);
  return 0;
}
"#,
        31,
        12,
    ),
    // a condition
    (
        r#"#pragma cle def P {"level":"purple"}
#pragma cle def Q {"level":"purple"}
#pragma cle def F {"level":"purple","cdf":[{"remotelevel":"purple","direction":"bidirectional","guarddirective":{"operation":"allow"},"argtaints":[],"codtaints":[],"rettaints":[]}]}
#pragma cle Q
int y;
#pragma cle F
void f(void) {
  if (y) { }
}
int main(void) { f(); return 0; }
"#,
        33,
        8,
    ),
    // the test of a loop
    (
        r#"#pragma cle def P {"level":"purple"}
#pragma cle def Q {"level":"purple"}
#pragma cle def F {"level":"purple","cdf":[{"remotelevel":"purple","direction":"bidirectional","guarddirective":{"operation":"allow"},"argtaints":[],"codtaints":[],"rettaints":[]}]}
#pragma cle Q
int y;
#pragma cle F
void f(void) {
  while (y) { }
}
int main(void) { f(); return 0; }
"#,
        33,
        8,
    ),
    // the test of `for`
    (
        r#"#pragma cle def P {"level":"purple"}
#pragma cle def Q {"level":"purple"}
#pragma cle def F {"level":"purple","cdf":[{"remotelevel":"purple","direction":"bidirectional","guarddirective":{"operation":"allow"},"argtaints":[],"codtaints":[],"rettaints":[]}]}
#pragma cle Q
int y;
#pragma cle F
void f(void) {
  for (int k = 0; y < k; k++) { }
}
int main(void) { f(); return 0; }
"#,
        33,
        8,
    ),
    // an initialiser in a labelled body
    (
        r#"#pragma cle def P {"level":"purple"}
#pragma cle def Q {"level":"purple"}
#pragma cle def F {"level":"purple","cdf":[{"remotelevel":"purple","direction":"bidirectional","guarddirective":{"operation":"allow"},"argtaints":[],"codtaints":[],"rettaints":[]}]}
#pragma cle Q
int y;
#pragma cle F
void f(void) {
  int t = y;
}
int main(void) { f(); return 0; }
"#,
        33,
        8,
    ),
    // an index on a left side
    (
        r#"#pragma cle def P {"level":"purple"}
#pragma cle def Q {"level":"purple"}
#pragma cle def F {"level":"purple","cdf":[{"remotelevel":"purple","direction":"bidirectional","guarddirective":{"operation":"allow"},"argtaints":[],"codtaints":[],"rettaints":[]}]}
#pragma cle Q
int y;
#pragma cle F
void f(void) {
  int t[2]; t[y] = 1;
}
int main(void) { f(); return 0; }
"#,
        33,
        8,
    ),
    // a place that an operator reads
    (
        r#"#pragma cle def P {"level":"purple"}
#pragma cle def Q {"level":"purple"}
#pragma cle def F {"level":"purple","cdf":[{"remotelevel":"purple","direction":"bidirectional","guarddirective":{"operation":"allow"},"argtaints":[],"codtaints":[],"rettaints":[]}]}
#pragma cle Q
int y;
#pragma cle F
void f(void) {
  y += 1;
}
int main(void) { f(); return 0; }
"#,
        33,
        8,
    ),
    // a place that is counted up
    (
        r#"#pragma cle def P {"level":"purple"}
#pragma cle def Q {"level":"purple"}
#pragma cle def F {"level":"purple","cdf":[{"remotelevel":"purple","direction":"bidirectional","guarddirective":{"operation":"allow"},"argtaints":[],"codtaints":[],"rettaints":[]}]}
#pragma cle Q
int y;
#pragma cle F
void f(void) {
  y++;
}
int main(void) { f(); return 0; }
"#,
        33,
        8,
    ),
    // a part of an expression
    (
        r#"#pragma cle def P {"level":"purple"}
#pragma cle def Q {"level":"purple"}
#pragma cle def F {"level":"purple","cdf":[{"remotelevel":"purple","direction":"bidirectional","guarddirective":{"operation":"allow"},"argtaints":[],"codtaints":[],"rettaints":[]}]}
#pragma cle Q
int y;
#pragma cle F
void f(void) {
  int t; t = 1 + y;
}
int main(void) { f(); return 0; }
"#,
        33,
        8,
    ),
    // what is given back
    (
        r#"#pragma cle def P {"level":"purple"}
#pragma cle def Q {"level":"purple"}
#pragma cle def F {"level":"purple","cdf":[{"remotelevel":"purple","direction":"bidirectional","guarddirective":{"operation":"allow"},"argtaints":[],"codtaints":[],"rettaints":["P"]}]}
#pragma cle Q
int y;
#pragma cle F
int f(void) {
  return y;
}
int main(void) { f(); return 0; }
"#,
        33,
        8,
    ),
    // a result that is dropped
    (
        r#"#pragma cle def P {"level":"purple"}
#pragma cle def Q {"level":"purple"}
#pragma cle def H {"level":"purple","cdf":[{"remotelevel":"purple","direction":"bidirectional","guarddirective":{"operation":"allow"},"argtaints":[],"codtaints":[],"rettaints":["Q"]}]}
#pragma cle def F {"level":"purple","cdf":[{"remotelevel":"purple","direction":"bidirectional","guarddirective":{"operation":"allow"},"argtaints":[],"codtaints":[],"rettaints":[]}]}
#pragma cle H
int h(void) { return 0; }
#pragma cle F
void f(void) {
  h();
}
int main(void) { f(); return 0; }
"#,
        33,
        9,
    ),
    // an argument of a library function
    (
        r#"#include <stdio.h>
#pragma cle def P {"level":"purple"}
#pragma cle def Q {"level":"purple"}
#pragma cle def F {"level":"purple","cdf":[{"remotelevel":"purple","direction":"bidirectional","guarddirective":{"operation":"allow"},"argtaints":[],"codtaints":[],"rettaints":[]}]}
#pragma cle Q
int y;
#pragma cle F
void f(void) {
  putchar(y);
}
int main(void) { f(); return 0; }
"#,
        33,
        9,
    ),
    // `putchar`
    (
        r#"#include <stdio.h>
#pragma cle def PURPLE {"level":"purple"}
#pragma cle def ORANGE {"level":"orange","cdf":[{"remotelevel":"purple","direction":"egress","guarddirective":{"operation":"allow"}}]}
#pragma cle def RESP {"level":"purple"}
#pragma cle def GETA {"level":"orange","cdf":[{"remotelevel":"purple","direction":"bidirectional","guarddirective":{"operation":"allow"},"argtaints":[],"codtaints":["ORANGE"],"rettaints":["ORANGE"]}]}
#pragma cle ORANGE
int a;
#pragma cle GETA
int get_a(void) {
  a = a + 1;
  return a;
}
int main(void) {
  for (int i = 0; i < 3; i++) {
    putchar(get_a());
  }
  return 0;
}
"#,
        34,
        15,
    ),
    // a second argument of `printf`
    (
        r#"#include <stdio.h>
#pragma cle def PURPLE {"level":"purple"}
#pragma cle def ORANGE {"level":"orange","cdf":[{"remotelevel":"purple","direction":"egress","guarddirective":{"operation":"allow"}}]}
#pragma cle def RESP {"level":"purple"}
#pragma cle def GETA {"level":"orange","cdf":[{"remotelevel":"purple","direction":"bidirectional","guarddirective":{"operation":"allow"},"argtaints":[],"codtaints":["ORANGE"],"rettaints":["ORANGE"]}]}
#pragma cle ORANGE
int a;
#pragma cle GETA
int get_a(void) {
  a = a + 1;
  return a;
}
int main(void) {
  for (int i = 0; i < 3; i++) {
    printf("%d %d\n", 1, get_a());
  }
  return 0;
}
"#,
        34,
        15,
    ),
    // what `main` gives back
    (
        r#"#include <stdio.h>
#pragma cle def PURPLE {"level":"purple"}
#pragma cle def ORANGE {"level":"orange","cdf":[{"remotelevel":"purple","direction":"egress","guarddirective":{"operation":"allow"}}]}
#pragma cle def RESP {"level":"purple"}
#pragma cle def GETA {"level":"orange","cdf":[{"remotelevel":"purple","direction":"bidirectional","guarddirective":{"operation":"allow"},"argtaints":[],"codtaints":["ORANGE"],"rettaints":["ORANGE"]}]}
#pragma cle ORANGE
int a;
#pragma cle GETA
int get_a(void) {
  a = a + 1;
  return a;
}
int main(void) {
  for (int i = 0; i < 3; i++) {
    i = i + 1;
  }
  return get_a();
}
"#,
        34,
        17,
    ),
    // a label of another level in a labelled body
    (
        r#"#include <stdio.h>
#pragma cle def P {"level":"purple","cdf":[{"remotelevel":"orange","direction":"egress","guarddirective":{"operation":"allow"}}]}
#pragma cle def G {"level":"orange","cdf":[{"remotelevel":"purple","direction":"bidirectional","guarddirective":{"operation":"allow"},"argtaints":[["P"]],"codtaints":[],"rettaints":[]}]}
#pragma cle P
int x;
#pragma cle G
void g(int p) {
  printf("%d\n", p);
}
int main(void) {
  g(x);
  return 0;
}
"#,
        34,
        8,
    ),
];

/// Sources that are accepted, and the labels of their objects, of the locals of each function, and of the results of functions.
pub(crate) const FLOWS: [(&str, &str); 11] = [
    // a local and the result of `main`
    (
        r#"#pragma cle def P {"level":"purple"}
#pragma cle def Q {"level":"purple"}
#pragma cle P
int x;
#pragma cle Q
int y;
int main(void) { int t = y; return t; }
"#,
        "[0] [1] | [1] | [1]",
    ),
    // the counter
    (
        r#"#include <stdio.h>
#pragma cle def PURPLE {"level":"purple"}
#pragma cle def ORANGE {"level":"orange"}
#pragma cle def RESP {"level":"purple"}
#pragma cle def GETA {"level":"orange","cdf":[{"remotelevel":"purple","direction":"bidirectional","guarddirective":{"operation":"allow"},"argtaints":[],"codtaints":["ORANGE"],"rettaints":["RESP"]}]}
#pragma cle ORANGE
int a;
#pragma cle GETA
int get_a(void) {
  a = a + 1;
  return a;
}
int main(void) {
  for (int i = 0; i < 3; i++) {
    printf("%d\n", get_a());
  }
  return 0;
}
"#,
        "[1] | ; [] | [2] []",
    ),
    // an array that is filled
    (
        r#"#include <stdio.h>
#pragma cle def P {"level":"purple"}
#pragma cle def FILL {"level":"orange","cdf":[{"remotelevel":"purple","direction":"bidirectional","guarddirective":{"operation":"allow"},"argtaints":[[]],"codtaints":[],"rettaints":[]}]}
#pragma cle FILL
void fill(int v[3]) {
for (int i = 0; i < 3; i++) { v[i] = v[i] + 10 * i; }
}
int main(void) {
int w[3] = {7, 7, 7};
fill(w);
printf("%d %d %d\n", w[0], w[1], w[2]);
return 0;
}
"#,
        " | [] []; [] | [] []",
    ),
    // what is given back has the labels of its list
    (
        r#"// accepted
#pragma cle def P {"level":"purple"}
#pragma cle def Q {"level":"purple"}
#pragma cle def F {"level":"purple","cdf":[{"remotelevel":"purple","direction":"bidirectional","guarddirective":{"operation":"allow"},"argtaints":[],"codtaints":["Q"],"rettaints":["P"]}]}
#pragma cle Q
int y;
#pragma cle F
int f(void) { return y; }
int main(void) { int k = f(); return k; }
"#,
        "[1] | ; [0] | [0] [0]",
    ),
    // the place of `=` isn't read
    (
        r#"#pragma cle def P {"level":"purple"}
#pragma cle def Q {"level":"purple"}
#pragma cle def F {"level":"purple","cdf":[{"remotelevel":"purple","direction":"bidirectional","guarddirective":{"operation":"allow"},"argtaints":[],"codtaints":[],"rettaints":[]}]}
#pragma cle Q
int y;
#pragma cle F
void f(void) { y = 1; }
int main(void) { f(); return 0; }
"#,
        "[1] | ;  | [] []",
    ),
    // a labelled body adds nothing to a labelled variable
    (
        r#"#pragma cle def P {"level":"purple"}
#pragma cle def Q {"level":"purple"}
#pragma cle P
int x;
#pragma cle Q
int y;
#pragma cle def F {"level":"purple","cdf":[{"remotelevel":"purple","direction":"bidirectional","guarddirective":{"operation":"allow"},"argtaints":[],"codtaints":["P","Q"],"rettaints":[]}]}
#pragma cle F
void f(void) { x = y; }
int main(void) { f(); return 0; }
"#,
        "[0] [1] | ;  | [] []",
    ),
    // nor to a parameter
    (
        r#"#pragma cle def P {"level":"purple"}
#pragma cle def Q {"level":"purple"}
#pragma cle P
int x;
#pragma cle Q
int y;
#pragma cle def F {"level":"purple","cdf":[{"remotelevel":"purple","direction":"bidirectional","guarddirective":{"operation":"allow"},"argtaints":[["P"]],"codtaints":["Q"],"rettaints":["P"]}]}
#pragma cle F
int f(int p) { p = y; return p; }
int main(void) { x = f(x); return 0; }
"#,
        "[0] [1] | [0];  | [0] []",
    ),
    // labels of levels
    (
        r#"#include <stdio.h>
#pragma cle def P {"level":"purple"}
int u;
int main(void) { int t = getchar(); u = t; return u; }
"#,
        "[@0] | [@0] | [@0]",
    ),
    // an index on the left, and a branch
    (
        r#"#pragma cle def P {"level":"purple"}
#pragma cle def Q {"level":"purple"}
#pragma cle P
int x;
#pragma cle Q
int y;
int main(void) { int t[2]; t[y] = 1; if (y) { t[0] = 2; } return t[0]; }
"#,
        "[0] [1] | [] | []",
    ),
    // a parameter of a labelled function as an array
    (
        r#"#pragma cle def P {"level":"purple"}
#pragma cle def Q {"level":"purple"}
#pragma cle def F {"level":"purple","cdf":[{"remotelevel":"purple","direction":"bidirectional","guarddirective":{"operation":"allow"},"argtaints":[["P"]],"codtaints":[],"rettaints":[]}]}
#pragma cle Q
int y;
void h(int b[2]) { b[0] = y; }
#pragma cle F
void f(int v[2]) { h(v); }
int main(void) { int a[2]; f(a); return 0; }
"#,
        "[1] | [0,1]; [0]; [0] | [] [] []",
    ),
    // an array of a labelled variable
    (
        r#"#pragma cle def P {"level":"purple"}
#pragma cle def Q {"level":"purple"}
#pragma cle def F {"level":"purple","cdf":[{"remotelevel":"purple","direction":"bidirectional","guarddirective":{"operation":"allow"},"argtaints":[],"codtaints":["Q"],"rettaints":[]}]}
#pragma cle Q
int y[2];
void h(int b[2]) { b[0] = 1; }
#pragma cle F
void f(void) { h(y); }
int main(void) { f(); return 0; }
"#,
        "[1] | [1]; ;  | [] [] []",
    ),
];
