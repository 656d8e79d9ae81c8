//! Comments and skipped lines with backslashes, trigraphs and bytes 13: those that joined lines, or a line that ends
//! elsewhere for a compiler, would change are refused where they begin (C99 5.1.1.2), and no other.

use crate::stations::{Way, rows_are_so};
use std::test::Fail;

// Sources and the lines by which they are refused, or `taken`.
static SPLICES: [(&str, &str); 53] = [
    // Comments from `//` on, to which a backslash or `??/` at the end of the line joins the next one.
    (
        "int x = 0, r;\n__task(1) void t(void) {\n  // from C:\\\n  x = 1;\n  r = 10 / x; }\n",
        "3:3 refused Lexical\n",
    ),
    ("int x;// a ??/\nint y;\n", "1:7 refused Lexical\n"),
    ("int x;// a ??/ \t\nint y;\n", "1:7 refused Lexical\n"),
    ("int x;// a \\ \t\r\nint y;\n", "1:7 refused Lexical\n"),
    ("int x; //\\\n", "1:8 refused Lexical\n"),
    ("int x;\n//??/\n\nint y;\n", "2:1 refused Lexical\n"),
    ("// ????/\n", "1:1 refused Lexical\n"),
    ("// \\\\\n", "1:1 refused Lexical\n"),
    // Backslashes that join no lines in such a comment.
    ("int x; // end \\", "taken"),
    ("int x; // a \\ b\nint y;\n", "taken"),
    ("int x; // a ??/b\nint y;\n", "taken"),
    ("// \\ \\\t??/ ??/", "taken"),
    ("// ??\\/\nint y;", "taken"),
    // Comments that joined lines would end before: a star, splices and a slash.
    ("int x; /* *\\\n/ int y; */\n", "1:8 refused Lexical\n"),
    ("int x; /* *??/\n\\\n/ int y; */\n", "1:8 refused Lexical\n"),
    ("int x; /* *\\ \n/ */ int y;\n", "1:8 refused Lexical\n"),
    ("int x; /* **\\\n/ */\n", "1:8 refused Lexical\n"),
    ("int x; /**\\\n/ */\n", "1:8 refused Lexical\n"),
    (
        "int x; /* * *??/\r\n\\ \t\x0b\x0c\n??/\n/ */",
        "1:8 refused Lexical\n",
    ),
    // Comments that they would not end.
    ("int x; /* \\\n * / ok \\\n */ int y;\n", "taken"),
    ("int x; /*\\\n*/ int y;\n", "taken"),
    ("int x; /* // \\\n */ int y;\n", "taken"),
    ("int x; /* *??/b\n/ */ int y;\n", "taken"),
    // Skipped lines that go on in the next one, by a splice or by a comment.
    ("#pragma a \\\nint y;\n", "1:1 refused Lexical\n"),
    ("# 3 \"f.c\" \\\nint y;\n", "1:1 refused Lexical\n"),
    ("#pragma a /* b\n int y; */\n", "1:1 refused Lexical\n"),
    ("  #\t line 3 /*\n\nint b;", "1:3 refused Lexical\n"),
    ("#pragma x\\\nint a;", "1:1 refused Lexical\n"),
    (
        "#pragma \"a\" /* \"b\" */ /*\nint y; */",
        "1:1 refused Lexical\n",
    ),
    (
        "#pragma x '\"' /*\nint y;\n#pragma x '\"' */\n",
        "1:1 refused Lexical\n",
    ),
    ("#pragma don't /* b\nint y; */", "1:1 refused Lexical\n"),
    ("#pragma x /*/\nint y; */", "1:1 refused Lexical\n"),
    // Skipped lines that do not: a comment that ends there, or `/*` in a literal or a comment.
    ("# 1 \"a/*b.c\"\nint y;\n", "taken"),
    ("#pragma x // /* y\nint y;\n", "taken"),
    ("#pragma x /* a */ /* b */\nint y;\n", "taken"),
    ("#line 3 \"a\\\"/*\"\nint y;\n", "taken"),
    ("#pragma don't \"/*\"\nint y;\n", "taken"),
    ("#pragma \"a??/\"/*\"\nint y;\n", "taken"),
    ("#pragma x \\\"/*\"\nint y;\n", "taken"),
    ("#pragma x /* // */\nint y;\n", "taken"),
    // A byte 13 with no byte 10 behind it, which ends a line for gcc and clang.
    ("int x; // a\rint y;\n", "1:8 refused Lexical\n"),
    ("int x; // a\r", "1:8 refused Lexical\n"),
    ("int x; // a\r\r\nint y;\n", "1:8 refused Lexical\n"),
    ("#pragma a\rint y;\n", "1:1 refused Lexical\n"),
    ("#\rline 3\nint y;\n", "1:1 refused Lexical\n"),
    ("int x; /* *\\\r/ int y; /* */\n", "1:8 refused Lexical\n"),
    (
        "int x; /* *\\ \r??/\r\n/ int y; */\n",
        "1:8 refused Lexical\n",
    ),
    // Bytes 13 that change no comment and no skipped line.
    ("int x;\rint y;\r// a\r\nint z;\r\n", "taken"),
    ("int x; // a\r\n#pragma b\r\nint y;\r\n", "taken"),
    ("int x; /* a\rb */ int y;\n", "taken"),
    ("int x; /* *\\\r \n/ */ int y;\n", "taken"),
    ("int x; /* *\\\r\r/ */ int y;\n", "taken"),
    ("int x; /* *\r/ */ int y;\n", "taken"),
];

#[test]
fn splices(rt: HostRuntime) -> Result<(), Fail> {
    rows_are_so(&rt, rt.alloc(), Way::Taken, &SPLICES)
}
