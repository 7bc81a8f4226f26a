//! Texts, with ` for each line feed or in hexadecimal, and what they come to. Each row has its kind, what is due, and its text.

/// Texts that are refused by name, with the line and the column of the cause.
pub const REFUSED: &str = r#"text|Goto 1 1|goto
text|Goto 3 5|int a;``    goto b;
text|Goto 2 2|#define a goto` a
text|Goto 1 3|a+goto
text|Goto 1 1|go\`to
text|Union 1 1|union
text|Union 1 1|union u { int a; };
text|Union 1 2|(union)
text|Union 2 5|#define u union`int u
text|Volatile 1 1|volatile
text|Volatile 1 1|volatile int a;
text|Volatile 1 7|const volatile
text|Volatile 2 1|#define v volatile`v v
text|FloatType 1 1|float
text|FloatType 1 1|double
text|FloatType 1 1|float f;
text|FloatType 1 10|unsigned double x
text|FloatType 3 1|#define real double``real
text|FloatConstant 1 1|1.0
text|FloatConstant 1 1|.5
text|FloatConstant 1 1|1.
text|FloatConstant 1 1|1e5
text|FloatConstant 1 1|1E+5
text|FloatConstant 1 1|1e-5f
text|FloatConstant 1 1|0.x
text|FloatConstant 1 1|1..2
text|FloatConstant 1 1|12e5z
text|FloatConstant 1 1|0x1.8
text|FloatConstant 2 2|#define n 1.5` n
text|Ellipsis 1 1|...
text|Ellipsis 1 10|f(int a, ...)
text|Ellipsis 1 2|a....b
text|Ellipsis 2 1|#define dots ...`dots
text|Directive 1 1|#undef a
text|Directive 1 1|#if 1
text|Directive 1 1|#pragma once
text|Directive 2 2|a` #else
text|Directive 1 1|#error
text|Directive 1 1|#line 3
text|Directive 1 1|#define
text|Directive 1 1|#define 1
text|Directive 1 1|#include "a.h"
text|Directive 1 1|#include <stdarg.h>
text|Directive 1 1|#include <stdio.h> a
text|Directive 1 1|#include <stdio.h
text|Directive 1 1|#include < stdio.h>
text|Directive 1 1|#include <stdio /**/.h>
text|Directive 1 1|#include
text|Directive 1 1|# 5
text|Directive 1 1|#define + 1
text|Directive 1 1|#foo @
text|Directive 1 1|#include <stdio.h>>
text|Directive 1 1|#define L"a"
text|Directive 1 1|##
text|FunctionMacro 1 1|#define f(x) x
text|FunctionMacro 1 1|#define f() 1
text|FunctionMacro 2 3|a;`  #define g(
text|FunctionMacro 1 1|#define a\`(1)
text|HashInMacro 1 11|#define a #
text|HashInMacro 1 13|#define a b # c
text|HashInMacro 1 13|#define a b ## c
text|FunctionMacro 1 1|#define a( #b
text|MacroRedefined 2 1|#define a 1`#define a 2
text|MacroRedefined 2 1|#define a 1`#define a
text|MacroRedefined 2 1|#define a`#define a b
text|MacroRedefined 2 1|#define a b c`#define a b  d
text|MacroRedefined 2 1|#define NULL 1`#include <stdio.h>
text|MacroRedefined 2 1|#include <stdlib.h>`#define EXIT_FAILURE 2
text|MacroRedefined 2 1|#define a 1`#define a 01
text|Trigraph 1 3|a ??= b
text|Trigraph 1 1|??(
text|Trigraph 1 3|"a??/b"
text|Trigraph 1 3|x ??!??! y
text|Trigraph 1 1|??'
text|Trigraph 1 1|??-
text|Trigraph 1 1|?\`?>
text|Trigraph 1 3|"???<"
text|WideLiteral 1 1|L'a'
text|WideLiteral 1 1|L"ab"
text|WideLiteral 1 5|a = L"";
text|WideLiteral 1 11|#define a L'x'
text|LongCharacter 1 1|''
text|LongCharacter 1 1|'ab'
text|LongCharacter 1 1|'\n\n'
text|LongCharacter 1 5|a = 'abcd';
text|LongCharacter 1 1|'\101b'
text|LongCharacter 1 1|'\qb'
text|LongCharacter 1 1|'a\`b'
text|BadEscape 1 2|"\q"
text|BadEscape 1 2|"\400"
text|BadEscape 1 2|"\xgg"
text|BadEscape 1 2|"\x100"
text|BadEscape 1 4|"ab\8"
text|BadEscape 1 2|'\e'
text|BadEscape 1 2|"\777"
text|BadEscape 1 6|"a" "\("
text|BadEscape 1 2|'\x'
text|BadConstant 1 1|09
text|BadConstant 1 1|0x
text|BadConstant 1 1|1u2
text|BadConstant 1 1|1ll
text|BadConstant 1 1|0xg
text|BadConstant 1 1|12ab
text|BadConstant 1 1|1uu
text|BadConstant 1 1|0b1
text|BadConstant 1 1|078
text|BadConstant 1 1|1e
text|BadConstant 1 1|0x1e+1
text|BadConstant 2 2|#define n 08` n n
text|NumberTooLarge 1 1|4294967296
text|NumberTooLarge 1 1|0x100000000
text|NumberTooLarge 1 1|040000000000
text|NumberTooLarge 1 1|99999999999999999999
text|NumberTooLarge 1 1|4294967296u
text|NumberTooLarge 1 3|a+4294967296
text|NumberTooLarge 2 1|#define big 4294967296`big
text|Unterminated 1 1|/*
text|Unterminated 1 3|a /* b
text|Unterminated 1 1|"abc
text|Unterminated 1 1|"abc`"
text|Unterminated 1 1|'a
text|Unterminated 1 1|'
text|Unterminated 1 1|"
text|Unterminated 1 1|"\"
text|Unterminated 1 1|/* *
text|Unterminated 1 1|/*/
text|Unterminated 1 1|/* // ` * /
text|Unterminated 1 11|#define a "b
text|Unterminated 1 20|#include <stdio.h> /*
text|Unterminated 1 1|"a\`"#;

/// Texts with a byte that may not stand there, with its line and its column.
pub const BAD_BYTES: &str = r#"text|BadByte 1 1|@
text|BadByte 1 3|a $ b
bytes|BadByte 1 1|60
text|BadByte 1 1|\
text|BadByte 1 2|a\ b
bytes|BadByte 1 2|6180
bytes|BadByte 1 1|01
bytes|BadByte 1 2|220122
bytes|BadByte 1 4|2f2a207f202a2f
bytes|BadByte 1 4|2f2f2008
text|BadByte 1 3|a # b
text|BadByte 1 16|int main(void){@}
text|BadByte 1 11|#define a @
bytes|BadByte 1 1|0e
text|BadByte 1 2|a\
text|BadByte 2 2|#define n 09` @ n
bytes|BadByte 1 1|fffe"#;

/// Texts that are taken, with how many tokens they have.
pub const TAKEN: &str = r#"text|7|int main(void){}
text|6|int a;``    go_to b;
text|0|
text|4|goto_ gotos _goto Goto
text|1|"goto"
text|0|/* goto */
text|0|#define goto`goto
text|0|#define a goto
text|4|switch case default typedef
text|1|unions
text|0|// union
text|1|'u'
text|1|volatiles
text|3|#define volatile`volatile int a;
text|3|floats doubles floating
text|3|1 .a
text|3|a.b
text|1|0x1e5
text|3|1 . 2
text|1|0xe
text|5|a->b . c
text|0|#define n 1.5
text|3|. . .
text|1|.
text|0|#
text|0| #  `#
text|0|#define a
text|0|#define a \` b
text|0|# define a b`#/**/define c a
text|0|#include <stdio.h>
text|0| # include/**/<stdlib.h> // x
text|2|#include <stdio.h>`#include <stdio.h>`#include <stdlib.h>`NULL EXIT_FAILURE
text|1|/* ` */ #define a b`a
text|2|a /* ` */ b
text|3|#define f (x)`f
text|3|#define f/**/(x)`f
text|4|f(x)
bytes|1|23646566696e652068617368202223220a68617368
text|1|'#'
text|0|#define a 1`#define a 1
text|0|#define a b c`#define a  b/**/c 
text|0|#define a`#define a
text|1|#define NULL 0`#include <stdio.h>`NULL
text|2|#define a 1`#define b 2`a b
text|3|? ?=
text|3|?? =
text|1|a
text|0|/* ??= */
text|1|"?\?="
text|2|??
text|1|"a?b"
text|0|// ??/
text|2|L 'a'
text|2|L "a"
text|3|LL L_ aL
text|1|xL
text|1|'L'
text|1|'a'
text|1|'\''
text|1|'"'
text|1|'\0'
text|1|'\377'
text|1|'\xff'
text|1|"'"
text|1|"\a\b\f\n\r\t\v\\\?\"\'"
text|1|"\x00000041"
text|1|"\1234"
text|1|"x"
text|1|"\377"
text|17|0 7 07 0xF 0XaB 1u 1U 1l 1L 1ul 1uL 1Ul 1UL 1lu 1lU 1Lu 1LU
text|1|1
text|2|a08 b_9
text|3|4294967295 0xFFFFFFFF 037777777777
text|1|2147483648
text|0|/**/
text|0|/***/
text|0|/* /* */
text|0|// /*
text|1|"/*"
text|1|""
text|1|"" ""
text|1|"a" /* b */`"c"
text|2|'a'\`'b'
bytes|1|615c0d0a62
bytes|0|0d0a090b0c20
bytes|1|2280ff22
bytes|0|2f2a20e9202a2f
text|5|x+++++y
text|3|a>>=b
text|4|a> >=b
text|3|a<<=b
text|6|!~^|&%
text|12|{}[]();,:?.->
text|2|#define x x y`x
text|4|#define a b`#define b a c`a b
text|1|__LINE__"#;

/// Files of so many lines, and texts in a small room.
pub const LIMITS: &str = r#"lines|65536|21842
lines|TooManyTokens 21844 1|21843
small|3|#define x y`x x y
small|1|"a" "\x62" ""
small|TooManyTokens 2 3|x y`z goto
small|TooManyReplacements 2 5|#define x`x x x
small|LiteralsTooLong 1 5|"a" "bc""#;
