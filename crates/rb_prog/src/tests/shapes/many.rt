// Scripts with many shapes.

use super::ran_command;
use crate::tests::Outcome;
use std::alloc::{AllocError, Global};
use std::test::Fail;

/// How many names the class has: as many as a class may have.
const NAMES: u32 = 32;

/// A class that sets its names by number, and what is done with it.
fn with_names(alloc: Global, rest: &str) -> Result<String, AllocError> {
    let mut source = String::from_str(alloc, "class Row\n  def set(n)\n")?;
    for name in 0..NAMES {
        write!(source, "    @a{name} = n if n == {name}\n")?;
    }
    source.push_str("  end\nend\n")?;
    source.push_str(rest)?;
    Ok(source)
}

/// The lines of one object that gets all names in turn.
fn one_path(alloc: Global) -> Result<String, AllocError> {
    let mut line = String::from_str(alloc, "Row")?;
    let mut lines = String::from_str(alloc, "Row\n")?;
    for name in 0..NAMES {
        write!(line, " @a{name}={name}i")?;
        write!(lines, "{line}\n")?;
    }
    Ok(lines)
}

/// The lines of objects that get two names each, every two names in both orders.
fn paths_of_two(alloc: Global) -> Result<String, AllocError> {
    let mut lines = String::from_str(alloc, "Row\n")?;
    for first in 0..NAMES {
        write!(lines, "Row @a{first}=0i\n")?;
        for second in (0..NAMES).filter(|second| *second != first) {
            write!(lines, "Row @a{first}=0i @a{second}=1i\n")?;
        }
    }
    Ok(lines)
}

#[test]
fn an_object_may_have_32_names(rt: HostRuntime) -> Result<(), Fail> {
    let alloc = rt.alloc();
    let source = with_names(alloc, "row = Row.new\n32.times { |n| row.set(n) }")?;
    let lines = one_path(alloc)?;
    let Outcome { report, .. } = ran_command(
        &rt,
        alloc,
        &["shapes", "a.rb"],
        source.as_str(),
        Vec::new(alloc),
    )?;
    assert_eq!(rt; report.status, 0);
    assert!(rt; report.out.bytes() == lines.as_bytes());
    Ok(())
}

#[test]
fn a_thousand_shapes_are_told_in_the_order_of_making(rt: HostRuntime) -> Result<(), Fail> {
    let alloc = rt.alloc();
    let source = with_names(
        alloc,
        "32.times do |first|\n  32.times do |second|\n    row = Row.new\n    row.set(first)\n    row.set(second)\n  end\nend",
    )?;
    let lines = paths_of_two(alloc)?;
    let Outcome { report, .. } = ran_command(
        &rt,
        alloc,
        &["shapes", "a.rb"],
        source.as_str(),
        Vec::new(alloc),
    )?;
    assert_eq!(rt; report.status, 0);
    assert!(rt; report.out.bytes() == lines.as_bytes());
    Ok(())
}
