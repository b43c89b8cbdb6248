//! Numbers, character constants and strings.

pub const ROWS: &str = r#"
// Numbers of each base up to their limits.
0 => 0@0-1
7 => 7@0-1
10 => 10@0-2
2147483647 => 2147483647@0-10
0u => 0u@0-2
0U => 0u@0-2
42u => 42u@0-3
2147483648u => 2147483648u@0-11
4294967295u => 4294967295u@0-11
4294967295U => 4294967295u@0-11
00 => 0@0-2
07 => 7@0-2
0777 => 511@0-4
017777777777 => 2147483647@0-12
020000000000 => 2147483648@0-12
037777777777 => 4294967295@0-12
037777777777u => 4294967295u@0-13
0x0 => 0@0-3
0X1f => 31@0-4
0xAbCdEf => 11259375@0-8
0x7fffffff => 2147483647@0-10
0x80000000 => 2147483648@0-10
0xffffffff => 4294967295@0-10
0XFFFFFFFFU => 4294967295u@0-11
0x1u => 1u@0-4
1+2 => 1@0-1 Plus@1-2 2@2-3
1.5 => 1@0-1 Dot@1-2 5@2-3
0x00000000001 => 1@0-13
000000000000017 => 15@0-15

// Runs that are no numbers and numbers past their limits.
2147483648 => Number(0)
4294967296u => Number(0)
4294967295 => Number(0)
99999999999999999999 => Number(0)
040000000000 => Number(0)
040000000000u => Number(0)
0x100000000 => Number(0)
0x100000000u => Number(0)
08 => Number(0)
019 => Number(0)
0x => Number(0)
0X => Number(0)
0xu => Number(0)
0xg => Number(0)
0x1g => Number(0)
1a => Number(0)
1_ => Number(0)
10l => Number(0)
10UL => Number(0)
10uu => Number(0)
10uU => Number(0)
0b1 => Number(0)
1e5 => Number(0)
0x1p3 => Number(0)
0u1 => Number(0)
int x = 4294967296u; => Number(8)
1 2 3x => Number(4)

// Characters and each escape.
'a' => char:97@0-3
' ' => char:32@0-3
'~' => char:126@0-3
'"' => char:34@0-3
'\'' => char:39@0-4
'\"' => char:34@0-4
'\n' => char:10@0-4
'\t' => char:9@0-4
'\r' => char:13@0-4
'\a' => char:7@0-4
'\b' => char:8@0-4
'\f' => char:12@0-4
'\v' => char:11@0-4
'\\' => char:92@0-4
'\?' => char:63@0-4
'\0' => char:0@0-4
'\0'7 => char:0@0-4 7@4-5
'0' => char:48@0-3
'/' => char:47@0-3
'a''b' => char:97@0-3 char:98@3-6

// Strings and each escape.
"" => text:[]@0-2
"a" => text:[97]@0-3
"it's" => text:[105, 116, 39, 115]@0-6
"\"" => text:[34]@0-4
"\n\t\r\a\b\f\v\\\'\"\?\0" => text:[10, 9, 13, 7, 8, 12, 11, 92, 39, 34, 63, 0]@0-26
"\08" => text:[0, 56]@0-5
"\0\0" => text:[0, 0]@0-6
"\0"7 => text:[0]@0-4 7@4-5
"a\0" => text:[97, 0]@0-5
"a" "b" => text:[97]@0-3 text:[98]@4-7
"/* no // comment */" => text:[47, 42, 32, 110, 111, 32, 47, 47, 32, 99, 111, 109, 109, 101, 110, 116, 32, 42, 47]@0-21
 "~ " => text:[126, 32]@1-5

// Strings that are not well formed are faulty at their quote.
" => Byte(0)
"a => Byte(0)
"\" => Byte(0)
"\012" => Byte(0)
"\00" => Byte(0)
"\07" => Byte(0)
"a\07b" => Byte(0)
"\x" => Byte(0)
"\e" => Byte(0)
"é" => Byte(0)
1 "a" " => Byte(6)

// Constants that are not well formed are faulty at their quote.
' => Byte(0)
'' => Byte(0)
'a => Byte(0)
'ab' => Byte(0)
'\' => Byte(0)
'\ => Byte(0)
'\q' => Byte(0)
'\x41' => Byte(0)
'\01' => Byte(0)
'\07' => Byte(0)
'\08' => Byte(0)
'\1' => Byte(0)
'é' => Byte(0)
x = ' => Byte(4)
"#;

// Rows that don't stand in a line of a text.
pub const ODD: &[(&str, &str)] = &[
    (
        "\"#include\"",
        "text:[35, 105, 110, 99, 108, 117, 100, 101]@0-10",
    ),
    ("\"a\nb\"", "Byte(0)"),
    ("\"a\\\nb\"", "Byte(0)"),
    ("\"\t\"", "Byte(0)"),
    ("\"\x7f\"", "Byte(0)"),
    // Constants that are not well formed are faulty at their quote.
    ("'\n'", "Byte(0)"),
    ("'\t'", "Byte(0)"),
    ("'\x1f'", "Byte(0)"),
    ("'\x7f'", "Byte(0)"),
    ("'a\n'", "Byte(0)"),
];
