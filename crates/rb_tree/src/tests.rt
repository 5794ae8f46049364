// Names and places, by example.

use crate::{NameId, Names, line_column};
use std::test::Fail;

#[test]
fn a_name_has_one_number_by_its_first_use(rt: HostRuntime) -> Result<(), Fail> {
    let mut names = Names::new(rt.alloc());
    let uses = [
        ("puts", 0),
        ("a", 1),
        ("", 2),
        ("a", 1),
        ("*", 3),
        ("puts", 0),
        ("ab", 4),
    ];
    for (text, number) in uses {
        assert!(rt; names.len() < 10);
        assert_eq!(rt; names.add(text.as_bytes())?, NameId(number), "{text}");
    }
    assert_eq!(rt; names.len(), 5);
    for (text, number) in uses {
        assert_eq!(rt; names.find(text.as_bytes()), Some(NameId(number)), "{text}");
    }
    for absent in ["b", "put", "putss", "A"] {
        assert_eq!(rt; names.find(absent.as_bytes()), None, "{absent}");
    }
    if names.len() == 5 {
        assert_eq!(rt; names.text(NameId(4)), b"ab".as_slice());
    }
    Ok(())
}

#[test]
fn many_names_have_their_numbers(rt: HostRuntime) -> Result<(), Fail> {
    let alloc = rt.alloc();
    let mut names = Names::new(alloc);
    for number in 0..3000 {
        let text = format!(in alloc; "{number}")?;
        assert!(rt; names.len() < 3000);
        assert_eq!(rt; names.add(text.as_bytes())?, NameId(number));
    }
    for number in 0..3000 {
        let text = format!(in alloc; "{number}")?;
        assert_eq!(rt; names.find(text.as_bytes()), Some(NameId(number)));
    }
    Ok(())
}

#[test]
fn bytes_have_lines_and_columns_from_1(rt: HostRuntime) -> Result<(), Fail> {
    let source = b"ab\n\nc\n".as_slice();
    for (at, line, column) in [
        (0, 1, 1),
        (1, 1, 2),
        (2, 1, 3),
        (3, 2, 1),
        (4, 3, 1),
        (5, 3, 2),
        (6, 4, 1),
    ] {
        if at <= 6 {
            assert_eq!(rt; line_column(source, at), (line, column), "{at}");
        }
    }
    Ok(())
}
