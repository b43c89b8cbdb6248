//! Items: structs, enumerations, objects, prototypes and functions.

pub const ROWS: &str = r#"
// Structs and enumerations are read.
struct s { int a; }; => 2 struct
struct s { int a, b[2]; struct t c; }; => 3 struct
struct s { char a[2][1 + 1]; unsigned int b; }; => 4 struct
enum { A }; => 2 enum
enum e { A, B }; => 2 enum
enum { A, }; => 2 enum
enum e { A = 1, B, }; => 3 enum
enum { A = 1 ? 2 : 3 }; => 4 enum
struct s { int a; }; enum { A }; int b; int c(void); int d() { } => 2 struct enum object prototype function

// Objects are read with their initialisers.
int a; => 2 object
char a, b; => 2 object
unsigned a; => 2 object
unsigned int a = 1, b = 2; => 4 object
struct s a, b[2][3]; => 3 object
int a[1 + 2]; => 4 object
int a = b = 1; => 5 object
int a[2] = { 1, 2 }; => 5 object
int a[2] = { 1, 2, }; => 5 object
int a[2][1] = { { 1 }, { 2 } }; => 6 object
int a = { 1 }; => 5 object
int a[1] = { -1 }, b = 2; => 6 object
struct s a = { { 1, }, b = 2, }; => 6 object

// Prototypes and functions are read.
int f(void); => 2 prototype
int f(); => 2 prototype
void f(int); => 2 prototype
void f(int, char c, unsigned u[], struct s t[3]); => 3 prototype
char f(unsigned int x[1 + 2]); => 4 prototype
unsigned f(struct s[]); => 2 prototype
unsigned int f(int[]); => 2 prototype
int f() { } => 2 function
void f(void) { } => 2 function
int f(int a[1], char) { ; } => 3 function empty
int f(int a[1 + 2]) { } => 4 function
int f(void); int f(void) { return 1; } int g; => 4 prototype function return object

// The token at which no struct or enumeration goes on.
struct => syntax 1
struct s; => syntax 2
struct { int a; }; => syntax 1
struct s { }; => syntax 3
struct s { int a; } => syntax 7
struct s { int a; } x; => syntax 7
struct s { int a = 1; }; => syntax 5
struct s { int f(void); }; => syntax 5
struct s { void a; }; => syntax 3
struct s { struct t { int a; } b; }; => syntax 5
struct s { int; }; => syntax 4
struct s { int a, }; => syntax 6
struct s { int a }; => syntax 5
struct s { int a[]; }; => syntax 6
struct s f(void); => syntax 3
struct s *p; => syntax 2
union u { int a; }; => syntax 0
enum e; => syntax 2
enum { }; => syntax 2
enum { A, , }; => syntax 4
enum { A B }; => syntax 3
enum { A = }; => syntax 4
enum { A } x; => syntax 4
enum { A = 1 = 2 }; => syntax 5
enum { 1 }; => syntax 2
enum e { A => syntax 4
enum { A } => syntax 4

// The token at which no object or function goes on.
; => syntax 0
a; => syntax 0
1 => syntax 0
int => syntax 1
int a => syntax 2
int 1; => syntax 1
int a b; => syntax 2
int a, ; => syntax 3
int *p; => syntax 1
int (a); => syntax 1
long a; => syntax 0
static int a; => syntax 0
const int a; => syntax 0
typedef int t; => syntax 0
unsigned char a; => syntax 1
int unsigned a; => syntax 1
int a[1; => syntax 4
int a[]; => syntax 3
int a[b = c]; => syntax 4
int a = ; => syntax 3
int a = { }; => syntax 4
int a = { 1 2 }; => syntax 5
int a = { , }; => syntax 4
int a[1] = { 1, , }; => syntax 9
int a = 1 => syntax 4
int a = 1 int b; => syntax 4
void; => syntax 1
void a; => syntax 2
void a, b; => syntax 2
int a, f(void); => syntax 4
int f(void), a; => syntax 5
int f(void)[1]; => syntax 5
int f(void, int a); => syntax 4
int f(int a,); => syntax 6
int f(a); => syntax 3
int f(,); => syntax 3
int f(void a); => syntax 4
int f(int a[2][3]); => syntax 8
int f(int a = 1); => syntax 5
int f(int a b); => syntax 5
int f(int *a); => syntax 4
int f(int => syntax 4
int f(void) => syntax 5
int f(void) int a; => syntax 5
int f(void) { } ; => syntax 7
int f(void) { => syntax 6
int f(void) = 1; => syntax 5
struct s { int a; }; } => syntax 8
"#;
