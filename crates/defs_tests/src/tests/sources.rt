//! Sources and what their labels tell, worked out by hand: those of `examples/labelling/rows`, each with its word, as `docs/check`
//! finds.

/// Sources that fail a rule, with its number and line.
pub(crate) const REFUSED: [(&str, u8, u32); 54] = [
    // a list of taints for a parameter that isn't there
    (
        r#"#pragma cle def PURPLE {"level":"purple"}
#pragma cle def ORANGE {"level":"orange"}
#pragma cle def RESP {"level":"purple"}
#pragma cle def GETA {"level":"orange","cdf":[{"remotelevel":"purple","direction":"bidirectional","guarddirective":{"operation":"allow"},"argtaints":[[]],"codtaints":["ORANGE"],"rettaints":["RESP"]}]}
#pragma cle ORANGE
int a;
#pragma cle GETA
int get_a(void) { a = a + 1; return a; }
int main(void) { return get_a(); }
"#,
        17,
        8,
    ),
    // a result's label that isn't shareable with the caller
    (
        r#"#pragma cle def PURPLE {"level":"purple"}
#pragma cle def ORANGE {"level":"orange"}
#pragma cle def RESP {"level":"purple"}
#pragma cle def GETA {"level":"orange","cdf":[{"remotelevel":"purple","direction":"bidirectional","guarddirective":{"operation":"allow"},"argtaints":[],"codtaints":["ORANGE"],"rettaints":["ORANGE"]}]}
#pragma cle ORANGE
int a;
#pragma cle GETA
int get_a(void) { a = a + 1; return a; }
int main(void) { return get_a(); }
"#,
        35,
        4,
    ),
    // an entry of the direction ingress lets nothing out
    (
        r#"#pragma cle def PURPLE {"level":"purple"}
#pragma cle def ORANGE {"level":"orange","cdf":[{"remotelevel":"purple","direction":"ingress","guarddirective":{"operation":"allow"}}]}
#pragma cle def RESP {"level":"purple"}
#pragma cle def GETA {"level":"orange","cdf":[{"remotelevel":"purple","direction":"bidirectional","guarddirective":{"operation":"allow"},"argtaints":[],"codtaints":["ORANGE"],"rettaints":["ORANGE"]}]}
#pragma cle ORANGE
int a;
#pragma cle GETA
int get_a(void) { a = a + 1; return a; }
int main(void) { return get_a(); }
"#,
        35,
        4,
    ),
    // an entry that blocks lets nothing out
    (
        r#"#pragma cle def PURPLE {"level":"purple"}
#pragma cle def ORANGE {"level":"orange","cdf":[{"remotelevel":"purple","direction":"egress","guarddirective":{"operation":"block"}}]}
#pragma cle def RESP {"level":"purple"}
#pragma cle def GETA {"level":"orange","cdf":[{"remotelevel":"purple","direction":"bidirectional","guarddirective":{"operation":"allow"},"argtaints":[],"codtaints":["ORANGE"],"rettaints":["ORANGE"]}]}
#pragma cle ORANGE
int a;
#pragma cle GETA
int get_a(void) { a = a + 1; return a; }
int main(void) { return get_a(); }
"#,
        35,
        4,
    ),
    // a text that is no JSON
    (
        r#"#pragma cle def P {"level":"purple"}
#pragma cle def Q {
int main(void) { return 0; }
"#,
        10,
        2,
    ),
    // no level
    (
        r#"#pragma cle def P {"level":"purple"}
#pragma cle def Q {}
int main(void) { return 0; }
"#,
        11,
        2,
    ),
    // a label defined a second time
    (
        r#"#pragma cle def P {"level":"purple"}
#pragma cle def P {"level":"purple"}
int main(void) { return 0; }
"#,
        12,
        2,
    ),
    // a region that isn't ended
    (
        r#"#pragma cle def P {"level":"purple"}
#pragma cle begin P
int main(void) { return 0; }
"#,
        14,
        2,
    ),
    // an unknown label
    (
        r#"#pragma cle def P {"level":"purple"}
#pragma cle Q
int a;
int main(void) { return 0; }
"#,
        13,
        2,
    ),
    // a data label on a function
    (
        r#"#pragma cle def P {"level":"purple"}
#pragma cle P
void f(void) {}
int main(void) { return 0; }
"#,
        16,
        3,
    ),
    // two pragmas for one item
    (
        r#"#pragma cle def P {"level":"purple"}
#pragma cle P
#pragma cle P
int main(void) { return 0; }
"#,
        15,
        4,
    ),
    // the same without its end
    (
        r#"#pragma cle def P {"level":"purple"}
int main(void) {
#pragma cle begin P
static int n;
int k = 1;
return 0; }
"#,
        14,
        3,
    ),
    // none follows it
    (
        r#"#pragma cle def P {"level":"purple"}
int main(void) { return 0; }
#pragma cle P
"#,
        14,
        3,
    ),
    // in a block a statement stands between
    (
        r#"#pragma cle def P {"level":"purple"}
int main(void) {
#pragma cle P
int k = 1;
static int n;
return 0; }
"#,
        14,
        3,
    ),
    // an end without its begin
    (
        r#"#pragma cle def P {"level":"purple"}
#pragma cle end P
int main(void) { return 0; }
"#,
        14,
        2,
    ),
    // an end of another block closes nothing
    (
        r#"#pragma cle def P {"level":"purple"}
#pragma cle begin P
int main(void) {
#pragma cle end P
return 0; }
"#,
        14,
        2,
    ),
    // an item in two regions
    (
        r#"#pragma cle def P {"level":"purple"}
#pragma cle def Q {"level":"purple"}
#pragma cle begin P
#pragma cle begin Q
int b;
#pragma cle end Q
#pragma cle end P
int main(void) { return 0; }
"#,
        15,
        5,
    ),
    // two declarations of a function with different labels
    (
        r#"#pragma cle def P {"level":"purple"}
#pragma cle def F {"level":"purple","cdf":[{"remotelevel":"purple","direction":"bidirectional","guarddirective":{"operation":"allow"},"argtaints":[],"codtaints":[],"rettaints":[]}]}
#pragma cle def G {"level":"purple","cdf":[{"remotelevel":"purple","direction":"bidirectional","guarddirective":{"operation":"allow"},"argtaints":[],"codtaints":[],"rettaints":[]}]}
#pragma cle F
void f(void);
#pragma cle G
void f(void) {}
int main(void) { return 0; }
"#,
        15,
        7,
    ),
    // a function label on a variable
    (
        r#"#pragma cle def F {"level":"purple","cdf":[{"remotelevel":"purple","direction":"bidirectional","guarddirective":{"operation":"allow"},"argtaints":[],"codtaints":[],"rettaints":[]}]}
#pragma cle F
int a;
int main(void) { return 0; }
"#,
        16,
        3,
    ),
    // a label for the result of a function without one
    (
        r#"#pragma cle def F {"level":"purple","cdf":[{"remotelevel":"purple","direction":"bidirectional","guarddirective":{"operation":"allow"},"argtaints":[],"codtaints":[],"rettaints":["@purple"]}]}
#pragma cle F
void f(void) {}
int main(void) { return 0; }
"#,
        17,
        3,
    ),
    // none for a result
    (
        r#"#pragma cle def F {"level":"purple","cdf":[{"remotelevel":"purple","direction":"bidirectional","guarddirective":{"operation":"allow"},"argtaints":[],"codtaints":[],"rettaints":[]}]}
#pragma cle F
int f(void) { return 1; }
int main(void) { return 0; }
"#,
        17,
        3,
    ),
    // a number past its type
    (
        r#"#pragma cle def F {"level":"purple","cdf":[{"remotelevel":"orange","direction":"bidirectional","guarddirective":{"operation":"redact","redact":[{"on":"request","field":"v.k","with":128}]},"argtaints":[[],[]],"codtaints":[],"rettaints":["G"]}]}
#pragma cle def G {"level":"orange"}
struct s { char k; int m[2]; };
#pragma cle F
int f(struct s v[3], unsigned int n) { return 1; }
int main(void) { return 0; }
"#,
        17,
        5,
    ),
    // a path of a reply to a parameter that is no array
    (
        r#"#pragma cle def F {"level":"purple","cdf":[{"remotelevel":"orange","direction":"bidirectional","guarddirective":{"operation":"redact","redact":[{"on":"reply","field":"n","with":1}]},"argtaints":[[],[]],"codtaints":[],"rettaints":["G"]}]}
#pragma cle def G {"level":"orange"}
struct s { char k; int m[2]; };
#pragma cle F
int f(struct s v[3], unsigned int n) { return 1; }
int main(void) { return 0; }
"#,
        17,
        5,
    ),
    // a member that isn't there
    (
        r#"#pragma cle def F {"level":"purple","cdf":[{"remotelevel":"orange","direction":"bidirectional","guarddirective":{"operation":"redact","redact":[{"on":"request","field":"v.j","with":1}]},"argtaints":[[],[]],"codtaints":[],"rettaints":["G"]}]}
#pragma cle def G {"level":"orange"}
struct s { char k; int m[2]; };
#pragma cle F
int f(struct s v[3], unsigned int n) { return 1; }
int main(void) { return 0; }
"#,
        17,
        5,
    ),
    // what is lent goes back
    (
        r#"#pragma cle def F {"level":"purple","cdf":[{"remotelevel":"orange","direction":"bidirectional","guarddirective":{"operation":"allow"},"argtaints":[["H"],[]],"codtaints":[],"rettaints":[]}]}
#pragma cle def G {"level":"orange"}
#pragma cle def H {"level":"purple"}
#pragma cle F
void f(int v[3], int n) { }
int main(void) { return 0; }
"#,
        35,
        1,
    ),
    // a redact in a data label
    (
        r#"#pragma cle def P {"level":"purple","cdf":[{"remotelevel":"purple","direction":"egress","guarddirective":{"operation":"redact","redact":[]}}]}
int main(void) { return 0; }
"#,
        11,
        1,
    ),
    // one way
    (
        r#"#pragma cle def P {"level":"purple","cdf":[{"remotelevel":"purple","direction":"egress","guarddirective":{"operation":"allow","oneway":true}}]}
int main(void) { return 0; }
"#,
        11,
        1,
    ),
    // taints that differ in their order
    (
        r#"#pragma cle def F {"level":"purple","cdf":[{"remotelevel":"purple","direction":"egress","guarddirective":{"operation":"allow"},"argtaints":[],"codtaints":["F","@purple"],"rettaints":[]},{"remotelevel":"x","direction":"egress","guarddirective":{"operation":"allow"},"argtaints":[],"codtaints":["@purple","F"],"rettaints":[]}]}
int main(void) { return 0; }
"#,
        11,
        1,
    ),
    // two entries for one level
    (
        r#"#pragma cle def F {"level":"purple","cdf":[{"remotelevel":"purple","direction":"egress","guarddirective":{"operation":"allow"}},{"remotelevel":"purple","direction":"ingress","guarddirective":{"operation":"allow"}}]}
int main(void) { return 0; }
"#,
        11,
        1,
    ),
    // a level of 33 letters
    (
        r#"#pragma cle def F {"level":"abcdefghijklmnopqrstuvwxyzabcdefg"}
int main(void) { return 0; }
"#,
        11,
        1,
    ),
    // a remote level that no definition has
    (
        r#"#pragma cle def P {"level":"purple"}
#pragma cle def F {"level":"purple","cdf":[{"remotelevel":"orange","direction":"egress","guarddirective":{"operation":"allow"}}]}
int main(void) { return 0; }
"#,
        13,
        2,
    ),
    // a taint that names a level without its sign
    (
        r#"#pragma cle def F {"level":"purple","cdf":[{"remotelevel":"purple","direction":"egress","guarddirective":{"operation":"allow"},"argtaints":[],"codtaints":["purple"],"rettaints":[]}]}
int main(void) { return 0; }
"#,
        13,
        1,
    ),
    // counter with a list of taints for a parameter
    (
        r#"#include <stdio.h>
#pragma cle def PURPLE {"level":"purple"}
#pragma cle def ORANGE {"level":"orange"}
#pragma cle def RESP {"level":"purple"}
#pragma cle def GETA {"level":"orange","cdf":[{"remotelevel":"purple","direction":"bidirectional","guarddirective":{"operation":"allow"},"argtaints":[[]],"codtaints":["ORANGE"],"rettaints":["RESP"]}]}
#pragma cle ORANGE
int a;
#pragma cle GETA
int get_a(void) {
  a = a + 1;
  return a;
}
int main(void) {
  for (int i = 0; i < 3; i++) {
    printf("%d\n", get_a());
  }
  return 0;
}
"#,
        17,
        9,
    ),
    // the same with its definition broken into three lines
    (
        r#"#include <stdio.h>
#pragma cle def PURPLE {"level":"purple"}
#pragma cle def ORANGE {"level":"orange"}
#pragma cle def RESP {"level":"purple"}
#pragma cle def GETA {"level":"orange",\
"cdf":[{"remotelevel":"purple","direction":"bidirectional","guarddirective":{"operation":"allow"},\
"argtaints":[[]],"codtaints":["ORANGE"],"rettaints":["RESP"]}]}
#pragma cle ORANGE
int a;
#pragma cle GETA
int get_a(void) {
  a = a + 1;
  return a;
}
int main(void) {
  for (int i = 0; i < 3; i++) {
    printf("%d\n", get_a());
  }
  return 0;
}
"#,
        17,
        11,
    ),
    // counter with the function's own label for its result
    (
        r#"#include <stdio.h>
#pragma cle def PURPLE {"level":"purple"}
#pragma cle def ORANGE {"level":"orange"}
#pragma cle def RESP {"level":"purple"}
#pragma cle def GETA {"level":"orange","cdf":[{"remotelevel":"purple","direction":"bidirectional","guarddirective":{"operation":"allow"},"argtaints":[],"codtaints":["ORANGE"],"rettaints":["ORANGE"]}]}
#pragma cle ORANGE
int a;
#pragma cle GETA
int get_a(void) {
  a = a + 1;
  return a;
}
int main(void) {
  for (int i = 0; i < 3; i++) {
    printf("%d\n", get_a());
  }
  return 0;
}
"#,
        35,
        5,
    ),
    // a 33rd level
    (
        r#"#pragma cle def L0 {"level":"a"}
#pragma cle def L1 {"level":"b"}
#pragma cle def L2 {"level":"c"}
#pragma cle def L3 {"level":"d"}
#pragma cle def L4 {"level":"e"}
#pragma cle def L5 {"level":"f"}
#pragma cle def L6 {"level":"g"}
#pragma cle def L7 {"level":"h"}
#pragma cle def L8 {"level":"i"}
#pragma cle def L9 {"level":"j"}
#pragma cle def L10 {"level":"k"}
#pragma cle def L11 {"level":"l"}
#pragma cle def L12 {"level":"m"}
#pragma cle def L13 {"level":"n"}
#pragma cle def L14 {"level":"o"}
#pragma cle def L15 {"level":"p"}
#pragma cle def L16 {"level":"q"}
#pragma cle def L17 {"level":"r"}
#pragma cle def L18 {"level":"s"}
#pragma cle def L19 {"level":"t"}
#pragma cle def L20 {"level":"u"}
#pragma cle def L21 {"level":"v"}
#pragma cle def L22 {"level":"w"}
#pragma cle def L23 {"level":"x"}
#pragma cle def L24 {"level":"y"}
#pragma cle def L25 {"level":"z"}
#pragma cle def L26 {"level":"A"}
#pragma cle def L27 {"level":"B"}
#pragma cle def L28 {"level":"C"}
#pragma cle def L29 {"level":"D"}
#pragma cle def L30 {"level":"E"}
#pragma cle def L31 {"level":"F"}
#pragma cle def L32 {"level":"G"}
int main(void) { return 0; }
"#,
        11,
        33,
    ),
    // 200 brackets in each other
    (
        r#"#pragma cle def P {"level":"purple"}
#pragma cle def Q {"level":"purple","x":[[[[[[[[[[[[[[[[[[[[[[[[[[[[[[[[[[[[[[[[[[[[[[[[[[[[[[[[[[[[[[[[[[[[[[[[[[[[[[[[[[[[[[[[[[[[[[[[[[[[[[[[[[[[[[[[[[[[[[[[[[[[[[[[[[[[[[[[[[[[[[[[[[[[[[[[[[[[[[[[[[[[[[[[[[[[[[[[[[[[[[[[[[[[[[[[[[[[[[[[]]]]]]]]]]]]]]]]]]]]]]]]]]]]]]]]]]]]]]]]]]]]]]]]]]]]]]]]]]]]]]]]]]]]]]]]]]]]]]]]]]]]]]]]]]]]]]]]]]]]]]]]]]]]]]]]]]]]]]]]]]]]]]]]]]]]]]]]]]]]]]]]]]]]]]]]]]]]]]]]]]]]]]]]]]]]]]]]]]]]]]]]]]]]]]]]]]]]]]]]}
int main(void) { return 0; }
"#,
        10,
        2,
    ),
    // lines count from the first, also where several rules fail: the first rule is named
    (
        r#"#pragma cle def P {"level":"purple"}
#pragma cle def P {"level":"purple"}
#pragma cle def Q {}
#pragma cle def R {
int main(void) { return 0; }
"#,
        10,
        4,
    ),
    // guide: a comma too many
    (
        r#"// E10 at 3
#pragma cle def P {"level":"purple"}
#pragma cle def Q {"level":"orange",}
int main(void) { return 0; }
"#,
        10,
        3,
    ),
    // guide: a level that begins with a digit
    (
        r#"// E11 at 2
#pragma cle def P {"level":"7up"}
int main(void) { return 0; }
"#,
        11,
        2,
    ),
    // guide: two entries for one level, in lines
    (
        r#"// E11 at 2
#pragma cle def P {"level":"purple","cdf":[ \
    {"remotelevel":"purple","direction":"egress","guarddirective":{"operation":"allow"}}, \
    {"remotelevel":"purple","direction":"ingress","guarddirective":{"operation":"allow"}}]}
int main(void) { return 0; }
"#,
        11,
        2,
    ),
    // guide: a name defined for two levels
    (
        r#"// E12 at 3
#pragma cle def P {"level":"purple"}
#pragma cle def P {"level":"orange"}
int main(void) { return 0; }
"#,
        12,
        3,
    ),
    // guide: a remote level that is no level
    (
        r#"// E13 at 2
#pragma cle def P {"level":"purple","cdf":[ \
    {"remotelevel":"orange","direction":"egress","guarddirective":{"operation":"allow"}}]}
int main(void) { return 0; }
"#,
        13,
        2,
    ),
    // guide: a number past the type of its field
    (
        r#"// E17 at 6
#pragma cle def F {"level":"orange","cdf":[{"remotelevel":"orange","direction":"bidirectional", \
    "guarddirective":{"operation":"redact","redact":[{"on":"request","field":"n","with":300}]}, \
    "argtaints":[[]],"codtaints":[],"rettaints":[]}]}
#pragma cle F
void f(unsigned char n) {}
int main(void) { return 0; }
"#,
        17,
        6,
    ),
    // guide: a level without its sign
    (
        r#"// E13 at 2
#pragma cle def F {"level":"orange","cdf":[ \
    {"remotelevel":"orange","direction":"bidirectional","guarddirective":{"operation":"allow"}, \
     "argtaints":[],"codtaints":["orange"],"rettaints":[]}]}
int main(void) { return 0; }
"#,
        13,
        2,
    ),
    // guide: lists in one entry of two
    (
        r#"// E11 at 3
#pragma cle def P {"level":"purple"}
#pragma cle def F {"level":"orange","cdf":[ \
    {"remotelevel":"orange","direction":"bidirectional","guarddirective":{"operation":"allow"}, \
     "argtaints":[],"codtaints":[],"rettaints":[]}, \
    {"remotelevel":"purple","direction":"bidirectional","guarddirective":{"operation":"allow"}}]}
int main(void) { return 0; }
"#,
        11,
        3,
    ),
    // guide: no list for a parameter
    (
        r#"// E17 at 6
#pragma cle def F {"level":"orange","cdf":[ \
    {"remotelevel":"orange","direction":"bidirectional","guarddirective":{"operation":"allow"}, \
     "argtaints":[],"codtaints":[],"rettaints":[]}]}
#pragma cle F
void f(int n) {}
int main(void) { return 0; }
"#,
        17,
        6,
    ),
    // guide: a result that is for its own level alone
    (
        r#"// E35 at 4
#pragma cle def PURPLE {"level":"purple"}
#pragma cle def ORANGE {"level":"orange"}
#pragma cle def GETA {"level":"orange","cdf":[ \
    {"remotelevel":"purple","direction":"bidirectional","guarddirective":{"operation":"allow"}, \
     "argtaints":[],"codtaints":["ORANGE"],"rettaints":["ORANGE"]}]}
#pragma cle GETA
int get_a(void) { return 7; }
int main(void) { return 0; }
"#,
        35,
        4,
    ),
    // guide: an array that is for its own level alone
    (
        r#"// E35 at 4
#pragma cle def PURPLE {"level":"purple"}
#pragma cle def ORANGE {"level":"orange"}
#pragma cle def FILL {"level":"orange","cdf":[ \
    {"remotelevel":"purple","direction":"bidirectional","guarddirective":{"operation":"allow"}, \
     "argtaints":[["ORANGE"]],"codtaints":[],"rettaints":[]}]}
#pragma cle FILL
void fill(int v[3]) {}
int main(void) { return 0; }
"#,
        35,
        4,
    ),
    // guide: a begin that is not ended in its block
    (
        r#"// E14 at 4
#pragma cle def P {"level":"purple"}
int main(void) {
#pragma cle begin P
    static int n;
    return 0;
}
"#,
        14,
        4,
    ),
    // guide: a statement before the next item
    (
        r#"// E14 at 4
#pragma cle def P {"level":"purple"}
int main(void) {
#pragma cle P
    int k = 1;
    static int n;
    return k;
}
"#,
        14,
        4,
    ),
    // guide: a pragma in a region
    (
        r#"// E15 at 6
#pragma cle def P {"level":"purple"}
#pragma cle def Q {"level":"purple"}
#pragma cle begin P
#pragma cle Q
int a;
#pragma cle end P
int main(void) { return 0; }
"#,
        15,
        6,
    ),
    // guide: a label of data on a function
    (
        r#"// E16 at 4
#pragma cle def P {"level":"purple"}
#pragma cle P
void f(void) {}
int main(void) { return 0; }
"#,
        16,
        4,
    ),
    // guide: a label that no definition has
    (
        r#"// E13 at 3
#pragma cle def P {"level":"purple"}
#pragma cle Q
int a;
int main(void) { return 0; }
"#,
        13,
        3,
    ),
];

/// Sources that have a table: the levels; each label with its level, its line and how many entries it has; the labels of
/// functions and of objects.
pub(crate) const TABLES: [(&str, &str); 23] = [
    // counter
    (
        r#"#pragma cle def PURPLE {"level":"purple"}
#pragma cle def ORANGE {"level":"orange"}
#pragma cle def RESP {"level":"purple"}
#pragma cle def GETA {"level":"orange","cdf":[{"remotelevel":"purple","direction":"bidirectional","guarddirective":{"operation":"allow"},"argtaints":[],"codtaints":["ORANGE"],"rettaints":["RESP"]}]}
#pragma cle ORANGE
int a;
#pragma cle GETA
int get_a(void) { a = a + 1; return a; }
int main(void) { return get_a(); }
"#,
        "purple,orange PURPLE/0/1/0,ORANGE/1/2/0,RESP/0/3/0,GETA/1/4/1 functions 3,- objects 1",
    ),
    // the same where its entry lets it out
    (
        r#"#pragma cle def PURPLE {"level":"purple"}
#pragma cle def ORANGE {"level":"orange","cdf":[{"remotelevel":"purple","direction":"egress","guarddirective":{"operation":"allow"}}]}
#pragma cle def RESP {"level":"purple"}
#pragma cle def GETA {"level":"orange","cdf":[{"remotelevel":"purple","direction":"bidirectional","guarddirective":{"operation":"allow"},"argtaints":[],"codtaints":["ORANGE"],"rettaints":["ORANGE"]}]}
#pragma cle ORANGE
int a;
#pragma cle GETA
int get_a(void) { a = a + 1; return a; }
int main(void) { return get_a(); }
"#,
        "purple,orange PURPLE/0/1/0,ORANGE/1/2/1,RESP/0/3/0,GETA/1/4/1 functions 3,- objects 1",
    ),
    // a region in a block reaches the static declarations that stand directly in it
    (
        r#"#pragma cle def P {"level":"purple"}
int main(void) {
#pragma cle begin P
static int n;
int k = 1;
#pragma cle end P
{ static int m; }
return 0; }
"#,
        "purple P/0/1/0 functions - objects 0,-",
    ),
    // a region in a block doesn't reach a nested block
    (
        r#"#pragma cle def P {"level":"purple"}
int main(void) {
#pragma cle begin P
{ static int m; }
static int n;
#pragma cle end P
return 0; }
"#,
        "purple P/0/1/0 functions - objects -,0",
    ),
    // a region of the file reaches functions and variables, and no static locals
    (
        r#"#pragma cle def P {"level":"purple"}
#pragma cle def F {"level":"purple","cdf":[{"remotelevel":"purple","direction":"bidirectional","guarddirective":{"operation":"allow"},"argtaints":[],"codtaints":[],"rettaints":[]}]}
#pragma cle begin F
void f(void) { static int n; }
#pragma cle end F
#pragma cle begin P
struct s { int k; };
int a, b;
#pragma cle end P
int main(void) { return 0; }
"#,
        "purple P/0/1/0,F/0/2/1 functions 1,- objects -,0,0",
    ),
    // a pragma for the next item passes over structs and pragmas
    (
        r#"#pragma cle def P {"level":"purple"}
#pragma cle P
#pragma cle def Q {"level":"purple"}
struct s { int k; };
int a;
int main(void) { return 0; }
"#,
        "purple P/0/1/0,Q/0/3/0 functions - objects 0",
    ),
    // regions of two names may cross
    (
        r#"#pragma cle def P {"level":"purple"}
#pragma cle def Q {"level":"purple"}
#pragma cle begin P
int a;
#pragma cle begin Q
#pragma cle end P
int b;
#pragma cle end Q
int main(void) { return 0; }
"#,
        "purple P/0/1/0,Q/0/2/0 functions - objects 0,1",
    ),
    // a function has the label of the declaration that has one
    (
        r#"#pragma cle def P {"level":"purple"}
#pragma cle def F {"level":"purple","cdf":[{"remotelevel":"purple","direction":"bidirectional","guarddirective":{"operation":"allow"},"argtaints":[],"codtaints":[],"rettaints":[]}]}
#pragma cle F
void f(void);
void f(void) {}
int main(void) { return 0; }
"#,
        "purple P/0/1/0,F/0/2/1 functions 1,- objects none",
    ),
    // a path into a struct in an array
    (
        r#"#pragma cle def F {"level":"purple","cdf":[{"remotelevel":"orange","direction":"bidirectional","guarddirective":{"operation":"redact","redact":[{"on":"request","field":"v.k","with":127},{"on":"reply","field":"v.k","with":-128},{"on":"reply","field":"return","with":1},{"on":"request","field":"n","with":4294967295}]},"argtaints":[[],[]],"codtaints":[],"rettaints":["G"]}]}
#pragma cle def G {"level":"orange"}
struct s { char k; int m[2]; };
#pragma cle F
int f(struct s v[3], unsigned int n) { return 1; }
int main(void) { return 0; }
"#,
        "purple,orange F/0/1/1,G/1/2/0 functions 0,- objects none",
    ),
    // what is handed over alone doesn't
    (
        r#"#pragma cle def F {"level":"purple","cdf":[{"remotelevel":"orange","direction":"bidirectional","guarddirective":{"operation":"allow"},"argtaints":[[],["H"]],"codtaints":[],"rettaints":[]}]}
#pragma cle def G {"level":"orange"}
#pragma cle def H {"level":"purple"}
#pragma cle F
void f(int v[3], int n) { }
int main(void) { return 0; }
"#,
        "purple,orange F/0/1/1,G/1/2/0,H/0/3/0 functions 0,- objects none",
    ),
    // not one way
    (
        r#"#pragma cle def P {"level":"purple","cdf":[{"remotelevel":"purple","direction":"egress","guarddirective":{"operation":"allow","oneway":false}}]}
int main(void) { return 0; }
"#,
        "purple P/0/1/1 functions - objects none",
    ),
    // a level of 32 letters, and a label that is used before it is defined, in a block
    (
        r#"#pragma cle def F {"level":"abcdefghijklmnopqrstuvwxyzabcdef"}
#pragma cle P
int a;
int main(void) {
#pragma cle def P {"level":"q2"}
return 0; }
"#,
        "abcdefghijklmnopqrstuvwxyzabcdef,q2 F/0/1/0,P/1/5/0 functions - objects 1",
    ),
    // counter whole
    (
        r#"#include <stdio.h>
#pragma cle def PURPLE {"level":"purple"}
#pragma cle def ORANGE {"level":"orange"}
#pragma cle def RESP {"level":"purple"}
#pragma cle def GETA {"level":"orange","cdf":[{"remotelevel":"purple","direction":"bidirectional","guarddirective":{"operation":"allow"},"argtaints":[],"codtaints":["ORANGE"],"rettaints":["RESP"]}]}
#pragma cle ORANGE
int a;
#pragma cle GETA
int get_a(void) {
  a = a + 1;
  return a;
}
int main(void) {
  for (int i = 0; i < 3; i++) {
    printf("%d\n", get_a());
  }
  return 0;
}
"#,
        "purple,orange PURPLE/0/2/0,ORANGE/1/3/0,RESP/0/4/0,GETA/1/5/1 functions 3,- objects 1",
    ),
    // counter with a definition broken into three lines
    (
        r#"#include <stdio.h>
#pragma cle def PURPLE {"level":"purple"}
#pragma cle def ORANGE {"level":"orange"}
#pragma cle def RESP {"level":"purple"}
#pragma cle def GETA {"level":"orange",\
"cdf":[{"remotelevel":"purple","direction":"bidirectional","guarddirective":{"operation":"allow"},\
"argtaints":[],"codtaints":["ORANGE"],"rettaints":["RESP"]}]}
#pragma cle ORANGE
int a;
#pragma cle GETA
int get_a(void) {
  a = a + 1;
  return a;
}
int main(void) {
  for (int i = 0; i < 3; i++) {
    printf("%d\n", get_a());
  }
  return 0;
}
"#,
        "purple,orange PURPLE/0/2/0,ORANGE/1/3/0,RESP/0/4/0,GETA/1/5/1 functions 3,- objects 1",
    ),
    // 32 levels, and one of them once more
    (
        r#"#pragma cle def L0 {"level":"a"}
#pragma cle def L1 {"level":"b"}
#pragma cle def L2 {"level":"c"}
#pragma cle def L3 {"level":"d"}
#pragma cle def L4 {"level":"e"}
#pragma cle def L5 {"level":"f"}
#pragma cle def L6 {"level":"g"}
#pragma cle def L7 {"level":"h"}
#pragma cle def L8 {"level":"i"}
#pragma cle def L9 {"level":"j"}
#pragma cle def L10 {"level":"k"}
#pragma cle def L11 {"level":"l"}
#pragma cle def L12 {"level":"m"}
#pragma cle def L13 {"level":"n"}
#pragma cle def L14 {"level":"o"}
#pragma cle def L15 {"level":"p"}
#pragma cle def L16 {"level":"q"}
#pragma cle def L17 {"level":"r"}
#pragma cle def L18 {"level":"s"}
#pragma cle def L19 {"level":"t"}
#pragma cle def L20 {"level":"u"}
#pragma cle def L21 {"level":"v"}
#pragma cle def L22 {"level":"w"}
#pragma cle def L23 {"level":"x"}
#pragma cle def L24 {"level":"y"}
#pragma cle def L25 {"level":"z"}
#pragma cle def L26 {"level":"A"}
#pragma cle def L27 {"level":"B"}
#pragma cle def L28 {"level":"C"}
#pragma cle def L29 {"level":"D"}
#pragma cle def L30 {"level":"E"}
#pragma cle def L31 {"level":"F"}
#pragma cle def M {"level":"F"}
int main(void) { return 0; }
"#,
        "a,b,c,d,e,f,g,h,i,j,k,l,m,n,o,p,q,r,s,t,u,v,w,x,y,z,A,B,C,D,E,F L0/0/1/0,L1/1/2/0,L2/2/3/0,L3/3/4/0,L4/4/5/0,L5/5/6/0,L6/6/7/0,L7/7/8/0,L8/8/9/0,L9/9/10/0,L10/10/11/0,L11/11/12/0,L12/12/13/0,L13/13/14/0,L14/14/15/0,L15/15/16/0,L16/16/17/0,L17/17/18/0,L18/18/19/0,L19/19/20/0,L20/20/21/0,L21/21/22/0,L22/22/23/0,L23/23/24/0,L24/24/25/0,L25/25/26/0,L26/26/27/0,L27/27/28/0,L28/28/29/0,L29/29/30/0,L30/30/31/0,L31/31/32/0,M/31/33/0 functions - objects none",
    ),
    // 126 brackets in each other
    (
        r#"#pragma cle def P {"level":"purple"}
#pragma cle def Q {"level":"purple","x":[[[[[[[[[[[[[[[[[[[[[[[[[[[[[[[[[[[[[[[[[[[[[[[[[[[[[[[[[[[[[[[[[[[[[[[[[[[[[[[[[[[[[[[[[[[[[[[[[[[[[[[[[[[[[[[[[[[[[[[[[[[[[[]]]]]]]]]]]]]]]]]]]]]]]]]]]]]]]]]]]]]]]]]]]]]]]]]]]]]]]]]]]]]]]]]]]]]]]]]]]]]]]]]]]]]]]]]]]]]]]]]]]]]]]]]]]]]]]]]]]]]]]]]]]]]]}
int main(void) { return 0; }
"#,
        "purple P/0/1/0,Q/0/2/0 functions - objects none",
    ),
    // a label on the item behind its region
    (
        r#"#pragma cle def P {"level":"purple"}
#pragma cle begin P
int a;
#pragma cle end P
int b;
int main(void) { return 0; }
"#,
        "purple P/0/1/0 functions - objects 0,-",
    ),
    // guide: the next item
    (
        r#"// accepted
#pragma cle def P {"level":"purple"}
#pragma cle P
int key = 7;
int main(void) { return 0; }
"#,
        "purple P/0/2/0 functions - objects 0",
    ),
    // guide: used before its definition, which is broken into lines and stands in a block
    (
        r#"// accepted
#pragma cle ORANGE
int a;
int main(void) {
#pragma cle def ORANGE {"level":"orange", \
    "cdf":[{"remotelevel":"orange","direction":"egress", \
            "guarddirective":{"operation":"allow"}}]}
    return 0;
}
"#,
        "orange ORANGE/0/5/1 functions - objects 0",
    ),
    // guide: a field of a reply that is replaced
    (
        r#"// accepted
#pragma cle def LEDGER {"level":"orange"}
#pragma cle def CARD {"level":"orange","cdf":[ \
    {"remotelevel":"purple","direction":"egress","guarddirective":{"operation":"allow"}}]}
#pragma cle def ASK {"level":"orange","cdf":[ \
    {"remotelevel":"purple","direction":"bidirectional", \
     "guarddirective":{"operation":"redact", \
         "redact":[{"on":"reply","field":"return.pin","with":0}]}, \
     "argtaints":[["@orange"]],"codtaints":["LEDGER"],"rettaints":["CARD"]}]}
#pragma cle def HERE {"level":"purple"}
struct card { int number; short pin; };
#pragma cle ASK
struct card ask(int n) { struct card c = {1, 2}; return c; }
int main(void) { return 0; }
"#,
        "orange,purple LEDGER/0/2/0,CARD/0/3/1,ASK/0/5/1,HERE/1/10/0 functions 2,- objects none",
    ),
    // guide: a result that its entry lets out
    (
        r#"// accepted
#pragma cle def PURPLE {"level":"purple"}
#pragma cle def ORANGE {"level":"orange","cdf":[ \
    {"remotelevel":"purple","direction":"egress","guarddirective":{"operation":"allow"}}]}
#pragma cle def GETA {"level":"orange","cdf":[ \
    {"remotelevel":"purple","direction":"bidirectional","guarddirective":{"operation":"allow"}, \
     "argtaints":[],"codtaints":["ORANGE"],"rettaints":["ORANGE"]}]}
#pragma cle GETA
int get_a(void) { return 7; }
int main(void) { return 0; }
"#,
        "purple,orange PURPLE/0/2/0,ORANGE/1/3/1,GETA/1/5/1 functions 2,- objects none",
    ),
    // guide: regions of a file and of a block
    (
        r#"// accepted
#pragma cle def P {"level":"purple"}
#pragma cle begin P
int a, b;
struct s { int k; };
struct s c;
#pragma cle end P
int d;
int main(void) {
#pragma cle begin P
    static int n;
    int k = 1;
#pragma cle end P
    return k;
}
"#,
        "purple P/0/2/0 functions - objects 0,0,0,-,0",
    ),
    // guide: the label of one declaration
    (
        r#"// accepted
#pragma cle def F {"level":"purple","cdf":[ \
    {"remotelevel":"purple","direction":"bidirectional","guarddirective":{"operation":"allow"}, \
     "argtaints":[[]],"codtaints":[],"rettaints":[]}]}
#pragma cle F
void f(int n);
void f(int n) {}
int main(void) { return 0; }
"#,
        "purple F/0/2/1 functions 0,- objects none",
    ),
];

/// Texts of definitions in which one key is of the wrong kind.
pub(crate) const WRONG_KINDS: [&str; 34] = [
    r#"{"level":7}"#,
    r#"{"level":["purple"]}"#,
    r#"{"level":null}"#,
    r#"{"level":"purple","cdf":{}}"#,
    r#"{"level":"purple","cdf":"purple"}"#,
    r#"{"level":"purple","cdf":[7]}"#,
    r#"{"level":"purple","cdf":[{"remotelevel":7,"direction":"egress","guarddirective":{"operation":"allow"},"argtaints":[],"codtaints":[],"rettaints":[]}]}"#,
    r#"{"level":"purple","cdf":[{"remotelevel":["purple"],"direction":"egress","guarddirective":{"operation":"allow"},"argtaints":[],"codtaints":[],"rettaints":[]}]}"#,
    r#"{"level":"purple","cdf":[{"remotelevel":"purple","direction":true,"guarddirective":{"operation":"allow"},"argtaints":[],"codtaints":[],"rettaints":[]}]}"#,
    r#"{"level":"purple","cdf":[{"remotelevel":"purple","direction":[],"guarddirective":{"operation":"allow"},"argtaints":[],"codtaints":[],"rettaints":[]}]}"#,
    r#"{"level":"purple","cdf":[{"remotelevel":"purple","direction":"egress","guarddirective":"allow","argtaints":[],"codtaints":[],"rettaints":[]}]}"#,
    r#"{"level":"purple","cdf":[{"remotelevel":"purple","direction":"egress","guarddirective":[],"argtaints":[],"codtaints":[],"rettaints":[]}]}"#,
    r#"{"level":"purple","cdf":[{"remotelevel":"purple","direction":"egress","guarddirective":{"operation":7},"argtaints":[],"codtaints":[],"rettaints":[]}]}"#,
    r#"{"level":"purple","cdf":[{"remotelevel":"purple","direction":"egress","guarddirective":{"operation":{}},"argtaints":[],"codtaints":[],"rettaints":[]}]}"#,
    r#"{"level":"purple","cdf":[{"remotelevel":"purple","direction":"egress","guarddirective":{"operation":"allow","oneway":0},"argtaints":[],"codtaints":[],"rettaints":[]}]}"#,
    r#"{"level":"purple","cdf":[{"remotelevel":"purple","direction":"egress","guarddirective":{"operation":"allow","oneway":null},"argtaints":[],"codtaints":[],"rettaints":[]}]}"#,
    r#"{"level":"purple","cdf":[{"remotelevel":"purple","direction":"egress","guarddirective":{"operation":"allow","oneway":"false"},"argtaints":[],"codtaints":[],"rettaints":[]}]}"#,
    r#"{"level":"purple","cdf":[{"remotelevel":"purple","direction":"egress","guarddirective":{"operation":"redact","redact":{}},"argtaints":[],"codtaints":[],"rettaints":[]}]}"#,
    r#"{"level":"purple","cdf":[{"remotelevel":"purple","direction":"egress","guarddirective":{"operation":"redact","redact":[7]},"argtaints":[],"codtaints":[],"rettaints":[]}]}"#,
    r#"{"level":"purple","cdf":[{"remotelevel":"purple","direction":"egress","guarddirective":{"operation":"redact","redact":[{"on":7,"field":"n","with":0}]},"argtaints":[],"codtaints":[],"rettaints":[]}]}"#,
    r#"{"level":"purple","cdf":[{"remotelevel":"purple","direction":"egress","guarddirective":{"operation":"redact","redact":[{"on":"request","field":7,"with":0}]},"argtaints":[],"codtaints":[],"rettaints":[]}]}"#,
    r#"{"level":"purple","cdf":[{"remotelevel":"purple","direction":"egress","guarddirective":{"operation":"redact","redact":[{"on":"request","field":["n"],"with":0}]},"argtaints":[],"codtaints":[],"rettaints":[]}]}"#,
    r#"{"level":"purple","cdf":[{"remotelevel":"purple","direction":"egress","guarddirective":{"operation":"redact","redact":[{"on":"request","field":"n","with":"0"}]},"argtaints":[],"codtaints":[],"rettaints":[]}]}"#,
    r#"{"level":"purple","cdf":[{"remotelevel":"purple","direction":"egress","guarddirective":{"operation":"redact","redact":[{"on":"request","field":"n","with":0.0}]},"argtaints":[],"codtaints":[],"rettaints":[]}]}"#,
    r#"{"level":"purple","cdf":[{"remotelevel":"purple","direction":"egress","guarddirective":{"operation":"redact","redact":[{"on":"request","field":"n","with":[0]}]},"argtaints":[],"codtaints":[],"rettaints":[]}]}"#,
    r#"{"level":"purple","cdf":[{"remotelevel":"purple","direction":"egress","guarddirective":{"operation":"allow"},"argtaints":{},"codtaints":[],"rettaints":[]}]}"#,
    r#"{"level":"purple","cdf":[{"remotelevel":"purple","direction":"egress","guarddirective":{"operation":"allow"},"argtaints":["Q"],"codtaints":[],"rettaints":[]}]}"#,
    r#"{"level":"purple","cdf":[{"remotelevel":"purple","direction":"egress","guarddirective":{"operation":"allow"},"argtaints":[[7]],"codtaints":[],"rettaints":[]}]}"#,
    r#"{"level":"purple","cdf":[{"remotelevel":"purple","direction":"egress","guarddirective":{"operation":"allow"},"argtaints":[],"codtaints":"Q","rettaints":[]}]}"#,
    r#"{"level":"purple","cdf":[{"remotelevel":"purple","direction":"egress","guarddirective":{"operation":"allow"},"argtaints":[],"codtaints":[7],"rettaints":[]}]}"#,
    r#"{"level":"purple","cdf":[{"remotelevel":"purple","direction":"egress","guarddirective":{"operation":"allow"},"argtaints":[],"codtaints":[["Q"]],"rettaints":[]}]}"#,
    r#"{"level":"purple","cdf":[{"remotelevel":"purple","direction":"egress","guarddirective":{"operation":"allow"},"argtaints":[],"codtaints":[],"rettaints":"Q"}]}"#,
    r#"{"level":"purple","cdf":[{"remotelevel":"purple","direction":"egress","guarddirective":{"operation":"allow"},"argtaints":[],"codtaints":[],"rettaints":[7]}]}"#,
    r#"{"level":"purple","cdf":[{"remotelevel":"purple","direction":"egress","guarddirective":{"operation":"allow"},"argtaints":[],"codtaints":[],"rettaints":null}]}"#,
];

/// Texts that differ from those in that key alone, with the right kind.
pub(crate) const RIGHT_KINDS: [&str; 3] = [
    r#"{"level":"purple"}"#,
    r#"{"level":"purple","cdf":[{"remotelevel":"purple","direction":"egress","guarddirective":{"operation":"allow"},"argtaints":[],"codtaints":[],"rettaints":[]}]}"#,
    r#"{"level":"purple","cdf":[{"remotelevel":"purple","direction":"egress","guarddirective":{"operation":"redact","redact":[{"on":"request","field":"n","with":0}]},"argtaints":[],"codtaints":[],"rettaints":[]}]}"#,
];
