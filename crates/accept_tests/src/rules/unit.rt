//! Whole sources: what may be declared at file scope (M2 to M4, M9 to M11), and functions and their definitions (M19).
use crate::rules::sources_agree;
use std::alloc::{AllocError, Global};
use std::test::Fail;

/// Stands behind the rows that have no `main`.
const MAIN: &str = " int main(void) { return 0; }";

const ITEMS: &str = r#"
// Names of file scope differ.
// C11 6.7p3 and 6.2.3: objects, functions and enum constants share a name space.
int a; int @a; => 2 a
int a; int b; => 0
int a, @a; => 2 a
int a; void f(void) { int a; } => 0
enum { A }; int @A; => 2 A
int A; enum { B, @A }; => 2 A
enum { A, B, @A }; => 2 A
enum { A, B, C }; => 0
void f(void) { } int @f; => 2 f
int f; void @f(void) { } => 2 f
enum { f }; void @f(void) { } => 2 f
int a; struct a { int a; }; => 0
void f(void) { } void g(int f) { } => 0
// Tags and members differ.
// C11 6.2.3 and 6.7.2.3p1: the tags of structs and enumerations share a name space; the members of each struct have one of
// their own.
struct s { int a; }; struct @s { int b; }; => 2 s
struct s { int a; }; struct t { int a; }; => 0
struct s { int a; }; enum @s { A }; => 2 s
enum s { A }; struct @s { int a; }; => 2 s
enum s { A }; enum { B }; => 0
enum s { A }; enum @s { B }; => 2 s
struct s { int a; }; int s; => 0
struct s { int a; int @a; }; => 2 a
struct s { int a, @a; }; => 2 a
struct s { int a; int b; char c, @b; }; => 2 b
struct s { int s; char a[2]; }; => 0
// Names of the library aren't declared at file scope.
// C11 7.1.3, in every name space
int @putchar; => 3 putchar
enum { @EOF }; => 3 EOF
enum @exit { A }; => 3 exit
struct @printf { int a; }; => 3 printf
struct s { int @getchar; }; => 3 getchar
void @exit(int a) { } => 3 exit
int f(int @EOF) { return 0; } => 3 EOF
int f(int @printf); int f(int a) { return a; } => 3 printf
int f(int print); int f(int a) { return a; } => 0
enum eof { put_char }; int get_char; => 0
// A struct is defined before the items that need it.
// C11 6.7.2.3p4: a struct's tag counts behind its members, and one that breaks a rule is no struct's.
struct @s x; => 4 s
struct s { int a; }; struct s x; => 0
struct @s x; struct s { int a; }; => 4 s
struct s { struct @s a; }; => 4 s
struct s { int a; }; struct t { struct s a; }; => 0
struct t { struct @s a[2]; }; => 4 s
enum e { A }; struct @e x; => 4 e
struct s { int a; }; int f(struct @s x) { return 0; } => 4 s
struct s { int a; }; int f(struct s x[]) { return x[0].a; } => 0
int f(struct @s x[]) { return 0; } => 4 s
struct s { int @a[0]; }; struct s x; => 10 a
// Lengths and initialisers are constants.
// C11 6.6p3 and p4, 6.7.9p4: at file scope every expression is a constant.
int n; int a[@n]; => 9 n
enum { N = 3 }; int a[N]; => 0
int y; int x = @y; => 9 y
int x = 1 + 2; => 0
int x = @x; => 9 x
int a[2] = { 1, @a[0] }; => 9 a[0]
int x = @y; => 1 y
int x = @1 / 0; => 9 1 / 0
struct s { int a[@n]; }; => 1 n
// A broken declaration alone is told.
// An object whose declaration is broken has no type, of which other rules could speak.
int vague[@x]; void f(void) { vague = vague[0] + vague.x; } => 1 x
int vague[@x]; void f(void) { vague(); } => 1 x
// Enum constants have values.
// C11 6.7.2.2p2 and p3, 6.2.1p7: an enum constant counts behind its value.
enum { A = 1, B = A + 1 }; int a[B] = { 1, 2 }; => 0
enum { A = @A }; => 1 A
enum { A = @B, B }; => 1 B
enum { A = 2147483647, @B }; => 9 B
enum { A = 2147483646, B }; => 0
enum { A = @2147483648u }; => 9 2147483648u
enum { A = @1 / 0, B }; => 9 1 / 0
int n; enum { A = @n }; => 9 n
enum { A, B, C = B + B }; int a[C] = { 1, 2 }; => 0
enum { A, B }; int a[B] = @{ 1, 2 }; => 11 { 1, 2 }
enum { A }; int @a[A]; => 10 a
// Objects and structs have sizes.
// C11 6.7.6.2p1, and the limits of the language: 65,536 elements and cells, 3 dimensions
int @a[0]; => 10 a
int a[1]; => 0
int @a[65537]; => 10 a
int a[65536]; => 0
int @a[256][257]; => 10 a
int a, @b[1][1][1][1]; => 10 b
struct @s { int a[65536]; int b; }; => 10 s
struct s { int a[65535]; int b; }; => 0
struct @s { int a[40000], b[40000]; }; => 10 s
struct s { int @a[65537]; }; => 10 a
struct s { int a[2]; }; struct s @x[32769]; => 10 x
struct s { int a[2]; }; struct s x[32768]; => 0
struct s { int a[2]; }; struct @t { struct s b[32768]; char c; }; => 10 t
struct s { struct @none a; int b[65536]; }; => 4 none
// An initialiser of file scope has the form of its object.
// C11 6.7.9p2 and p16
int a[2] = @1; => 11 1
int a[2] = { 1, 2 }; => 0
int x = @{ 1 }; => 11 { 1 }
struct s { int a; char b; }; struct s x = { 1, 2 }; => 0
struct s { int a; char b; }; struct s x = @{ 1, 2, 3 }; => 11 { 1, 2, 3 }
int @a[0] = { x }; => 10 a
// Declarations of a function agree.
// C11 6.7p4 and 6.7.6.3p15
int f(void); int f(void) { return 0; } => 0
int f(int); int f(int a) { return a; } int f(int b); => 0
int f(int); int @f(void) { return 0; } => 19 f
int f(void); char @f(struct none a[]) { return 0; } => 19 f
int f(int a[]); char @f(struct none a[]) { return 0; } => 19 f
int f(int, char); int @f(struct none, int a) { return 0; } => 19 f
int f(int); int f(struct @none a[]) { return 0; } => 4 none
int f(int); int @f(char a) { return 0; } => 19 f
int f(int); char @f(int a) { return 0; } => 19 f
void f(void); int @f(void) { return 0; } => 19 f
void f(int, char); void @f(int a, int b) { } => 19 f
int f(int a[]); int f(int a[3]) { return 0; } => 0
int f(int a[]); int @f(int a) { return 0; } => 19 f
int f(int a[]); int f(struct @none a[]) { return 0; } => 4 none
struct s { int a; }; struct t { int a; }; int f(struct s a[]); int @f(struct t a[]) { return 0; } => 19 f
int f(unsigned); int f(unsigned int a) { return 0; } => 0
// A function is defined once.
// C11 6.9p3 and p5, 6.9.1p5
int @f(void); => 19 f
int f(void) { return 0; } int f(void); => 0
void f(void) { } void @f(void) { } => 19 f
void f(void) { } void g(void) { } => 0
void @f(int) { } => 19 f
void f(int a) { } => 0
void @f(int a, int) { } => 19 f
void @f(void); void g(void) { f(); } => 19 f
void f(void); void @g(void); void f(void) { } => 19 g
void @f(void); void f(void); => 19 f
void f(void) { @g(); } void g(void) { } => 12 g
int g(void); int f(void) { return g(); } int g(void) { return f(); } => 0
int f(int a) { if (a) return f(a - 1); return 0; } => 0
// Parameters have a scope.
// C11 6.2.1p4: parameters stand in the block of the body, or in a scope of their prototype.
int f(int a, int @a) { return 0; } => 2 a
int f(int a, int @a); int f(int a, int b) { return a; } => 2 a
int f(int a, int b); int f(int b, int a) { return a; } => 0
int f(int a); int f(int b) { return @a; } => 1 a
int f(int a); int a; int f(int b) { return a; } => 0
int f(int f) { return f; } => 0
int f(int a) { int @a; return 0; } => 2 a
int f(int a) { { int a; } return a; } => 0
int f(int a) { return a; } int g(void) { return @a; } => 1 a
int f(int n, int a[@n]) { return 0; } => 9 n
int f(int a[@n], int n) { return 0; } => 1 n
int f(int n, int a[@n]); int f(int n, int a[]) { return 0; } => 9 n
enum { N = 2 }; int f(int a[N]) { return a[0]; } => 0
// In items the earlier place is told.
int a; int @a; int b[0]; => 2 a
int @b[0]; int a; int a; => 10 b
int @f(void); int a; int a; => 19 f
int a; int @a; int f(void); => 2 a
struct @s x; int a[0]; => 4 s
int @a[0]; struct s x; => 10 a
int x = @y, x; => 1 y
int x, @x = y; => 2 x
enum { A = @B, A }; => 1 B
enum { A, @A = B }; => 2 A
struct @s { int a; int a; int b[65536]; }; => 10 s
struct s { int a, @a, b[0]; }; => 2 a
struct s { int @b[0], a, a; }; => 10 b
void f(int); void @f(int a, int a) { } => 19 f
void f(int a, int @a) { x = 1; } => 2 a
// In items, at one place, the lesser rule is told.
int f; int @f(void); => 2 f
int @exit(int a, char b); => 3 exit
int a; int @a[0]; => 2 a
struct s { int a; }; struct @s { int a[40000], b[40000]; }; => 2 s
"#;

#[test]
fn items_keep_to_the_rules(rt: HostRuntime) -> Result<(), Fail> {
    sources_agree(&rt, rt.alloc(), MAIN, ITEMS)
}

const WHOLE: &str = r#"
@ => 19
@int f(void) { return 0; } => 19
int main(void) { return 0; } => 0
int main() { return 0; } => 0
int @main(int a) { return 0; } => 19 main
void @main(void) { } => 19 main
unsigned @main(void) { return 0; } => 19 main
int @main(void); => 19 main
int main(void); int main(void) { return 0; } => 0
@int main; => 19
int main(void) { return @x; } => 1 x
int f(void) { return @x; } => 1 x
int main(void) { return 0; } int @main(void) { return 0; } => 19 main
"#;

// C11 5.1.2.2.1p1. A missing `main` has no place, and is told where nothing else is.
#[test]
fn a_source_has_a_main(rt: HostRuntime) -> Result<(), Fail> {
    sources_agree(&rt, rt.alloc(), "", WHOLE)
}

/// Structs, each inside the next one, the last one at an `@`.
fn nested(alloc: Global, count: u32, mark: &str) -> Result<String, AllocError> {
    let mut text = String::from_str(alloc, "struct s1 { int a; };")?;
    for level in 2..=count {
        let before = level - 1;
        let mark = if level == count { mark } else { "" };
        let more = format!(in alloc; " struct {mark}s{level} {{ struct s{before} a; }};")?;
        text.push_str(more.as_str())?;
    }
    Ok(text)
}

// A limit of the language: 32 structs stand inside each other.
#[test]
fn structs_stand_inside_each_other(rt: HostRuntime) -> Result<(), Fail> {
    let most = nested(rt.alloc(), 32, "")?;
    let more = nested(rt.alloc(), 33, "@")?;
    let rows = format!(in rt.alloc(); "{most} => 0\n{more} => 10 s33\n")?;
    sources_agree(&rt, rt.alloc(), MAIN, rows.as_str())
}
