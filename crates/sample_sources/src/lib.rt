//! Sources in C that several crates of tests use.
#![tactic(auto)]

/// A program that counts lines, words and bytes, and the digits and blanks among them.
pub const WORD_COUNTER: &str = r#"#include <stdio.h>

/* Counts lines, words, bytes and digits. */
enum { OUT = 0, IN = 1, KINDS = 4 };

struct counts {
    int lines;
    int words;
    int bytes;
    int digits;
};

struct counts total;
int kinds[KINDS];

int kind_of(int c)
{
    if (c >= '0' && c <= '9')
        return 1;
    switch (c) {
    case ' ':
    case '\t':
        return 2;
    case '\n':
        return 3;
    default:
        return 0;
    }
}

int sum(int list[], int n)
{
    int i;
    int s = 0;
    for (i = 0; i < n; i++)
        s += list[i];
    return s;
}

int main(void)
{
    int c;
    int state = OUT;

    while ((c = getchar()) != -1) {
        int k = kind_of(c);
        total.bytes++;
        kinds[k]++;
        switch (k) {
        case 1:
            total.digits++;
            break;
        case 3:
            total.lines++;
            state = OUT;
            break;
        case 2:
            state = OUT;
            break;
        default:
            if (state == OUT)
                total.words++;
            state = IN;
        }
    }
    printf("%d %d %d\n", total.lines, total.words, total.bytes);
    if (sum(kinds, KINDS) != total.bytes)
        return 1;
    return 0;
}
"#;

/// The line of [`WORD_COUNTER`] behind which [`CHANGED_LINE`] is added in its next version.
pub const LINE_BEFORE: &str = "            total.digits++;\n";

/// The line that is added there: a digit counts as inside a word, so a letter right behind it begins none.
pub const CHANGED_LINE: &str = "            state = IN;\n";
