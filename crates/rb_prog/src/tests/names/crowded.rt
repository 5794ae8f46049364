// How many variables and classes there may be.

use super::found;
use crate::tests::sources::numbered;
use std::test::Fail;

/// A source in rows: what it begins with, what stands in each line before and behind its number, what it ends with, how many
/// lines there are, and what is found. The numbers count from 100.
#[rattlefmt::skip]
const ROWS: [(&str, &str, &str, &str, u32, &str); 24] = [
    ("class A; def f\n", "@f", "", "end; end", 32, "kept"),
    ("class A; def f\n", "@f", "", "end; end", 33, "TooManyFields 207"),
    ("class A; def f\n", "@f", "", "end; end", 40, "TooManyFields 207"),
    ("puts 1; class A; def f\n", "@f", "", "end; end", 33, "TooManyFields 215"),
    // Each counts once, in all the methods of its class and in those of `attr` lines.
    ("class A; def f\n", "@f", "", "@f105; end; end", 32, "kept"),
    ("class A; def f\n", "@f", "", "@g; end; end", 32, "TooManyFields 207"),
    ("class A; def f; @a; end; def g\n", "@f", "", "end; end", 32, "TooManyFields 217"),
    ("class A; attr_reader :a; def g\n", "@f", "", "end; end", 32, "TooManyFields 217"),
    ("class A; def f; @a; end; end; class B; def g\n", "@f", "", "end; end", 32, "kept"),
    ("", "$g", "", "", 256, "kept"),
    ("", "$g", "", "", 257, "TooManyFields 1536"),
    ("", "$g", "", "", 300, "TooManyFields 1536"),
    ("", "$g", "", "$g105", 256, "kept"),
    ("def f; $a; end\n", "$g", "", "", 256, "TooManyFields 1545"),
    // They count in the order of the text, wherever a definition stands.
    ("", "$g", "", "def f; $a; end", 256, "TooManyFields 1543"),
    ("", "$g", "", "class A; def f; $g100; $a; end; end", 256, "TooManyFields 1559"),
    ("puts $z\n", "$g", "", "def f; $a; end", 255, "TooManyFields 1545"),
    ("", "$g", "", "$y\ndef f; $a; end\n$z", 255, "TooManyFields 1540"),
    ("def f; $a; end\n", "$g", "", "class A; def g; $b; end; end", 255, "TooManyFields 1561"),
    ("", "class C", "; end", "", 256, "kept"),
    ("", "class C", "; end", "", 257, "TooManyClasses 4102"),
    ("", "class C", "; end", "", 300, "TooManyClasses 4102"),
    ("puts 1\n", "class C", "; end", "", 257, "TooManyClasses 4109"),
    // The class too many has a name that was given before: at one place the rule of the lower number counts.
    ("", "class C", "; end", "class C105; end", 256, "TwiceDefined 4102"),
];

#[test]
fn a_variable_or_a_class_too_many_is_told_where_it_first_stands(
    rt: HostRuntime,
) -> Result<(), Fail> {
    for (beginning, front, back, end, lines, fault) in ROWS {
        let source = numbered(rt.alloc(), beginning, front, back, end, lines)?;
        let found = found(rt.alloc(), source.as_str())?;
        assert_eq!(rt; found.as_str(), fault, "{front} {lines} {end}");
    }
    Ok(())
}
