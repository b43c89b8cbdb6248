//! Statements, each in the body of a function: the depth is 2 more than that of the statement, and the first token is the 6th from 0.

pub const ROWS: &str = r#"
// A block has declarations expressions labels and blocks.
; => 3 function empty
{ } => 3 function block
{ ; } => 4 function block
{ int a; { } } => 4 function block
a; => 4 function eval
a = 1; => 5 function eval
int a; => 3 function declare
int a = 1; => 5 function declare
struct s a; => 3 function declare
unsigned int a[2], b; => 4 function declare
char a[1] = { 1 }; => 6 function declare
l: ; => 4 function label
l: m: a; => 6 function label
a: b; => 5 function label
a ? b : c; => 5 function eval
a(b); => 5 function eval
(a); => 5 function eval
int a; a = 1; l: return a; { } => 5 function declare eval label block
a; int b; ; => 4 function eval declare empty

// An else belongs to the nearest if.
if (a) ; => 4 function if
if (a) ; else ; => 4 function if
if (a) ; else if (b) ; else ; => 5 function if
if (a) if (b) ; else if (c) ; => 6 function if
if (a) { if (b) ; } else if (c) if (d) ; => 6 function if
if (a) while (b) if (c) ; else if (d) ; => 7 function if
if (a) l: if (b) ; else if (c) ; => 7 function if
if (a) for (;;) if (b) ; else if (c) ; => 7 function if
if (a) if (b) ; else ; else if (c) if (d) ; => 6 function if
if (a) do if (b) ; while (c); else ; => 6 function if
if (a) ; if (b) ; => 4 function if if
if (a = 1) b; else { c; } => 6 function if

// Each loop is read with its parts.
while (a) ; => 4 function while
while (a) while (b) c; => 6 function while
do ; while (a); => 4 function do
do do ; while (a); while (b); => 5 function do
for (;;) ; => 4 function for
for (a; b; c) ; => 5 function for
for (int i = 0; i < 1; i++) ; => 6 function for
for (struct s a;;) ; => 4 function for
for (; a;) ; => 4 function for
for (;; a) ; => 4 function for
for (a;;) { } => 5 function for

// A switch and each jump are read.
switch (a) { } => 4 function switch
switch (a) { case 1: break; case 2: ; default: continue; } => 5 function switch
switch (a) { int b; case 1 + 2: l: ; } => 6 function switch
switch (a) { case b ? c : d: ; } => 6 function switch
switch (a) { case 1: } => 5 function switch
switch (a) { default: default: } => 4 function switch
switch (a) { case 1: switch (b) { case 2: } } => 6 function switch
break; => 3 function break
continue; => 3 function continue
goto l; => 3 function goto
return; => 3 function return
return a; => 4 function return
return a = b; => 5 function return

// The token at which no line goes on.
a => syntax 7
a, b; => syntax 7
a b; => syntax 7
else ; => syntax 6
case 1: ; => syntax 6
default: ; => syntax 6
* a; => syntax 6
} } => syntax 7
int g(void); => syntax 8
void g; => syntax 6
enum { A }; => syntax 6
struct s { int a; }; => syntax 8
struct s; => syntax 8
int; => syntax 7
static int a; => syntax 6
(void)a; => syntax 7
l: } => syntax 8
l: int a; => syntax 8
1: ; => syntax 7
(a): b; => syntax 9
a.b: ; => syntax 9
{ ; => syntax 9
break => syntax 7
continue a; => syntax 7
goto ; => syntax 7
goto 1; => syntax 7
goto l => syntax 8
return => syntax 7
return a b; => syntax 8
return { 1 }; => syntax 7

// The token at which no selection or loop goes on.
if a => syntax 7
if () ; => syntax 8
if (a) } => syntax 10
if (a) int b; => syntax 10
if (int a) ; => syntax 8
if (a) ; else } => syntax 12
if (a) ; ; else ; => syntax 12
if (a) ; else int b; => syntax 12
if (a) ; else ; else ; => syntax 13
while a => syntax 7
while (a) int b; => syntax 10
while () ; => syntax 8
do ; a; => syntax 8
do ; while (a) => syntax 12
do int a; while (b); => syntax 7
do ; ; while (a); => syntax 8
for (a) ; => syntax 9
for (;) ; => syntax 9
for (;;;) ; => syntax 10
for (int a) ; => syntax 10
for (;;) int a; => syntax 11
for (;;) } => syntax 11
for (l: ;;) ; => syntax 9
for ; => syntax 7
switch (a) ; => syntax 10
switch (a) case 1: ; => syntax 10
switch (a) { case : ; } => syntax 12
switch (a) { case 1 ; } => syntax 13
switch (a) { case b = 1: ; } => syntax 13
switch (a) { default ; } => syntax 12
switch (a) { { case 1: ; } } => syntax 12
switch (a) { if (b) case 1: ; } => syntax 15
switch (a) { l: } => syntax 13
switch (a) { l: case 1: ; } => syntax 13
switch (a) { else ; } => syntax 11
"#;
