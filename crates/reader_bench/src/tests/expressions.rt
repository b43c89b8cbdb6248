//! Expressions, each as the initialiser of an object: the depth is 3 more than that of the expression, and the first token is the 3rd from 0.

pub const ROWS: &str = r#"
// Primary and postfix expressions are read.
1 => 4 object
'a' => 4 object
"s" => 4 object
y => 4 object
(1) => 5 object
f() => 4 object
f(1, 2) => 5 object
f(1 + 2, 3) => 6 object
a[1] => 5 object
a[1][2] => 6 object
a[b = c] => 6 object
a.b => 5 object
a.b.c => 6 object
a++ => 5 object
a-- => 5 object
a++ ++ => 6 object
f(1)[2].a++ => 8 object
(-a).b => 7 object
1[a] => 5 object

// Unary expressions and casts are read.
+a => 5 object
-a => 5 object
!a => 5 object
~a => 5 object
++a => 5 object
--a => 5 object
- -a => 6 object
!~-+a => 8 object
-a.b => 6 object
(int)a => 5 object
(char)(int)a => 6 object
(unsigned)-a => 6 object
(unsigned int)a => 5 object
(int)a.b => 6 object
(int)a + b => 6 object

// Each operator binds to the left.
-a * b * c => 7 object
-a / b / c => 7 object
-a % b % c => 7 object
-a + b + c => 7 object
-a - b - c => 7 object
-a << b << c => 7 object
-a >> b >> c => 7 object
-a < b < c => 7 object
-a > b > c => 7 object
-a <= b <= c => 7 object
-a >= b >= c => 7 object
-a == b == c => 7 object
-a != b != c => 7 object
-a & b & c => 7 object
-a ^ b ^ c => 7 object
-a | b | c => 7 object
-a && b && c => 7 object
-a || b || c => 7 object

// Each level binds looser than the next.
a || b || c && d => 6 object
a && b && c | d => 6 object
a | b | c ^ d => 6 object
a ^ b ^ c & d => 6 object
a & b & c == d => 6 object
a == b == c < d => 6 object
a < b < c << d => 6 object
a << b << c + d => 6 object
a + b + c * d => 6 object

// Operators of one level stand in one chain.
-a * b / c * d => 8 object
-a % b * c % d => 8 object
-a - b + c - d => 8 object
-a >> b << c >> d => 8 object
-a < b >= c < d => 8 object
-a <= b > c <= d => 8 object
-a != b == c != d => 8 object

// Choices and assignments bind to the right.
a ? b : c => 5 object
-a ? b : c ? d : e => 6 object
a ? b ? c : d : e => 6 object
a ? b = c : d => 6 object
a || b ? c : d => 6 object
-a = b = c => 6 object
a = b ? c : d => 6 object
++a = b => 6 object
(a) = b => 6 object
(int)a = b => 6 object
1 = 2 => 5 object
a[0] = b => 6 object
a = b => 5 object
a += b => 5 object
a -= b => 5 object
a *= b => 5 object
a /= b => 5 object
a %= b => 5 object
a &= b => 5 object
a |= b => 5 object
a ^= b => 5 object
a <<= b => 5 object
a >>= b => 5 object

// The token at which no expression goes on.
 => syntax 3
() => syntax 4
(a => syntax 5
a b => syntax 4
a + => syntax 5
* a => syntax 3
& a => syntax 3
sizeof a => syntax 3
a -> b => syntax 5
a . 1 => syntax 5
a[ => syntax 5
a[] => syntax 5
a[1 => syntax 6
f( => syntax 5
f(1 => syntax 6
f(1,) => syntax 7
f(,) => syntax 5
f()() => syntax 6
(f)() => syntax 6
1(2) => syntax 4
a ? b => syntax 6
a ? : b => syntax 5
a ? b : => syntax 7
a ? b : c = d => syntax 8
a + b = c => syntax 6
a = => syntax 5
a += += b => syntax 5
- => syntax 4
++ => syntax 4
(int) => syntax 6
(int a)b => syntax 5
(void)a => syntax 4
(unsigned char)a => syntax 5
(struct s)a => syntax 4
(a, b) => syntax 5
"a" "b" => syntax 4
a, 1 => syntax 5
{ 1 } + 2 => syntax 6
"#;
