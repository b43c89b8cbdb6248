//! Comments and include lines.

pub const ROWS: &str = r#"
// Comments separate tokens and do not nest.
a/**/b => name:a@0-1 name:b@5-6
/* /* */x => name:x@8-9
/* // */x => name:x@8-9
a/ *b => name:a@0-1 Slash@1-2 Star@3-4 name:b@4-5
a/b => name:a@0-1 Slash@1-2 name:b@2-3
a/=b => name:a@0-1 SlashEqual@1-3 name:b@3-4

// A comment that is not closed is faulty where it opens.
/* => Byte(0)
/* a * => Byte(0)
/* a * / => Byte(0)
a /* b => Byte(2)
/*/ => Byte(0)
/* a */ /* b => Byte(8)

// Other lines with a number sign are faulty at it.
# => Directive(0)
#  => Directive(0)
#define N 1 => Directive(0)
#include => Directive(0)
#include <stdio.h => Directive(0)
#include <math.h> => Directive(0)
#include "stdio.h" => Directive(0)
#include <stdio.h>x => Directive(0)
#include <stdio.h> x => Directive(0)
#include <stdio.h>; => Directive(0)
#include <stdio.h> /* x => Directive(0)
#include <stdio.h> / x => Directive(0)
#includes <stdio.h> => Directive(0)
#Include <stdio.h> => Directive(0)
#include < stdio.h> => Directive(0)
x #include <stdio.h> => Directive(2)
/* a */ #include <stdio.h> => Directive(8)
#include <stdio.h> #include <stdio.h> => Directive(0)
#include <stdio.h> /* a */ #include <stdlib.h> => Directive(27)
#ifdef X => Directive(0)
"#;

// Rows that don't stand in a line of a text.
pub const ODD: &[(&str, &str)] = &[
    ("/**/", ""),
    ("/***/", ""),
    ("/* a */", ""),
    ("/* a\nb */x", "name:x@9-10"),
    ("/*/*/", ""),
    ("// a", ""),
    ("// a\nx", "name:x@5-6"),
    ("//\nx", "name:x@3-4"),
    ("a//b/*\nc*/", "name:a@0-1 name:c@7-8 Star@8-9 Slash@9-10"),
    ("// /*\nx", "name:x@6-7"),
    ("/*\u{e9}\x00*/", ""),
    ("////x\ny", "name:y@6-7"),
    ("x\n/*\n", "Byte(2)"),
    ("#include\n<stdio.h>", "Directive(0)"),
    ("#\ninclude <stdio.h>", "Directive(0)"),
    ("x; #include <stdio.h>\n", "Directive(3)"),
    ("/* a\n */ #include <stdio.h>", "Directive(9)"),
    ("\x0b#include <stdio.h>", "Directive(1)"),
    ("\r#include <stdio.h>", "Directive(1)"),
    ("\x0c#include <stdio.h>", "Directive(1)"),
    ("\"#\" #", "Directive(4)"),
    // Include lines stand alone but for a comment behind them.
    ("#include <stdio.h>", ""),
    ("#include <stdlib.h>\n", ""),
    ("#include<stdio.h>\nx", "name:x@18-19"),
    (" \t#include <stdio.h>\nx", "name:x@21-22"),
    ("#\tinclude\x0b<stdlib.h> \x0c\r\nx", "name:x@24-25"),
    ("#include <stdio.h> // io\nx", "name:x@25-26"),
    ("#include <stdio.h> /* io */\nx", "name:x@28-29"),
    ("#include <stdio.h>/**/x", "name:x@22-23"),
    (
        "\n\n  #include <stdio.h>\n#include <stdlib.h>\nx",
        "name:x@43-44",
    ),
    ("x\n#include <stdio.h>\nx", "name:x@0-1 name:x@21-22"),
    ("/* a */\n#include <stdio.h>\n", ""),
    ("\r\n#include <stdio.h>\r\nx", "name:x@22-23"),
];
