//! Texts with other bytes than those of printable ASCII.

/// Whole texts, in which a backquote stands for the byte 255.
pub(crate) const BYTES: &str = "
Items 0:
Items 1: \t@a\t=\tglobal\ti8\t0\t
Lex 1: \x0c@a = global i8 0
Items 0: \r^\t ^
Lex 2: )^\x01
Items 1: ; \x01`\"^@a = global i8 0 ; \x01
Items 0: ; c\r@a = global i8 0
Lex 1: @\"\x00\" = global i8 0
Lex 1: @a = global i8\x000
Lex 1: @a = global i8 0\x0b
Form 1: @a = global i8 0\r@b\r= global
Form 3: @a = global i8 0\r^@b = global i8\r^0 0
Items 2: @a = global i8 0 ;\r^; c\r^\r^@b = global i8 1\r^;
Lex 3: ^^\x01
Items 0: source_filename = \"\x00\\00\"
Items 0: source_filename = \"a.c\"\r^
Items 0: source_filename = \"`\x01\"
Lex 1: `
";
