// Each refusal and each fault, with its whole line on standard error.

use super::sources::{numbered, repeated};
use super::{Outcome, ran_source};
use std::alloc::{AllocError, Global};
use std::test::Fail;

/// A source that is refused, and what its line says behind `rbso: refused `.
const REFUSED: [(&[u8], &str); 38] = [
    (b"puts 1\xFF", "1 NotUtf8 at 1:7"),
    (b"\xFF", "1 NotUtf8 at 1:1"),
    (b"puts 1\nputs 2\xC3", "1 NotUtf8 at 2:7"),
    (b"puts ~1", "2 BadCharacter at 1:6"),
    (b"~", "2 BadCharacter at 1:1"),
    (b"puts 1\nputs 1a", "2 BadCharacter at 2:7"),
    (b"puts \"ab", "3 UnclosedText at 1:6"),
    (b"'a", "3 UnclosedText at 1:1"),
    (b"puts 1\nputs \"a#{1", "3 UnclosedText at 2:6"),
    (b"puts \"a\\q\"", "4 BadEscape at 1:8"),
    (b"\"\\z\"", "4 BadEscape at 1:2"),
    (b"puts 1\nputs \"\\a\"", "4 BadEscape at 2:7"),
    (b"puts 9223372036854775808", "5 IntegerTooWide at 1:6"),
    (b"9223372036854775808", "5 IntegerTooWide at 1:1"),
    (
        b"puts 1\nputs 1 + 99999999999999999999",
        "5 IntegerTooWide at 2:10",
    ),
    (b"class A", "7 Syntax at 1:8"),
    (b"end", "7 Syntax at 1:1"),
    (b"puts 1\n)", "7 Syntax at 2:1"),
    (b"foo", "9 UnknownName at 1:1"),
    (b"puts foo", "9 UnknownName at 1:6"),
    (b"puts 1\nfoo 1", "9 UnknownName at 2:1"),
    (b"x = Foo.new", "10 UnknownClass at 1:9"),
    (b"Foo.new", "10 UnknownClass at 1:5"),
    (b"puts 1\nputs Foo.new", "10 UnknownClass at 2:10"),
    (b"def f\nend\ndef f\nend", "11 TwiceDefined at 3:5"),
    (b"def f(a, a)\nend", "11 TwiceDefined at 1:10"),
    (b"class A\nend\nclass A\nend", "11 TwiceDefined at 3:7"),
    (
        b"x = 1\nt = Thread.new { puts x }\nx = 2",
        "12 UnsettledCapture at 2:23",
    ),
    (
        b"x = 1\nThread.new { x }\nx = 2",
        "12 UnsettledCapture at 2:14",
    ),
    (
        b"a = 1\nwhile a < 3\nThread.new { a }\na = a + 1\nend",
        "12 UnsettledCapture at 3:14",
    ),
    (b"break", "15 BreakOutside at 1:1"),
    (b"puts 1\nnext", "15 BreakOutside at 2:1"),
    (b"  return", "15 BreakOutside at 1:3"),
    (b"puts @x", "16 SelfOutside at 1:6"),
    (b"self", "16 SelfOutside at 1:1"),
    (b"puts 1\n@x = 1", "16 SelfOutside at 2:4"),
    // Of two faults the first in the text counts.
    (b"puts @x\nbreak", "16 SelfOutside at 1:6"),
    (b"break\nputs @x", "15 BreakOutside at 1:1"),
];

/// The line of a refusal.
fn refused(alloc: Global, said: &str) -> Result<String, AllocError> {
    format!(in alloc; "rbso: refused {said}\n")
}

#[test]
fn each_refusal_has_its_line(rt: HostRuntime) -> Result<(), Fail> {
    for (source, said) in REFUSED {
        let Outcome { report, err } = ran_source(&rt, rt.alloc(), source)?;
        let line = refused(rt.alloc(), said)?;
        assert_eq!(rt; report.status, 3, "{said}");
        assert_eq!(rt; err.bytes(), line.as_bytes(), "{said}");
        assert!(rt; report.out.bytes().is_empty(), "{said}");
        assert!(rt; report.front.is_none(), "{said}");
    }
    Ok(())
}

#[test]
fn more_than_64_open_brackets_are_too_nested(rt: HostRuntime) -> Result<(), Fail> {
    for (front, said) in [
        ("", "8 TooNested at 1:65"),
        ("  ", "8 TooNested at 1:67"),
        ("puts 1\n", "8 TooNested at 2:65"),
    ] {
        let opened = repeated(rt.alloc(), front, "(", 65)?;
        let mut source = repeated(rt.alloc(), opened.as_str(), "1", 1)?;
        source.push_str(repeated(rt.alloc(), "", ")", 65)?.as_str())?;
        let Outcome { err, .. } = ran_source(&rt, rt.alloc(), source.as_bytes())?;
        assert_eq!(rt;
            err.bytes(),
            refused(rt.alloc(), said)?.as_bytes(),
            "{said}"
        );
    }
    Ok(())
}

#[test]
fn too_many_variables_and_classes_are_told_at_the_first_that_is_too_many(
    rt: HostRuntime,
) -> Result<(), Fail> {
    for (beginning, front, back, end, lines, said) in [
        ("", "puts $g", "", "", 257, "13 TooManyFields at 257:6"),
        ("\n", "puts $g", "", "", 257, "13 TooManyFields at 258:6"),
        (
            "class A\ndef f\n",
            "puts @f",
            "",
            "end\nend",
            33,
            "13 TooManyFields at 35:6",
        ),
        (
            "",
            "class C",
            "; end",
            "",
            257,
            "14 TooManyClasses at 257:7",
        ),
        (
            "\n",
            "class C",
            "; end",
            "",
            257,
            "14 TooManyClasses at 258:7",
        ),
        (
            "puts 1\n\n",
            "class C",
            "; end",
            "",
            257,
            "14 TooManyClasses at 259:7",
        ),
    ] {
        let source = numbered(rt.alloc(), beginning, front, back, end, lines)?;
        let Outcome { err, .. } = ran_source(&rt, rt.alloc(), source.as_bytes())?;
        assert_eq!(rt;
            err.bytes(),
            refused(rt.alloc(), said)?.as_bytes(),
            "{said}"
        );
    }
    Ok(())
}
