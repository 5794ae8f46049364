// Texts and values.

use crate::{Fault, SharedText, Value};
use std::alloc::Global;
use std::test::Fail;

/// A text, and how many characters it has.
const COUNTS: [(&str, i64); 6] = [
    ("", 0),
    ("abc", 3),
    ("\u{e9}", 1),
    ("a\u{20ac}b", 3),
    ("\u{1f600}\u{1f600}", 2),
    ("line\n", 5),
];

#[test]
fn characters_are_counted(rt: HostRuntime) -> Result<(), Fail> {
    let alloc = rt.alloc();
    for (text, count) in COUNTS {
        let shared = SharedText::from_slice(alloc, text.as_bytes())?;
        assert_eq!(rt; shared.characters(), count);
        assert_eq!(rt; shared.as_slice(), text.as_bytes());
    }
    Ok(())
}

#[test]
fn a_shared_text_outlives_its_first_owner(rt: HostRuntime) -> Result<(), Fail> {
    let alloc = rt.alloc();
    let second = {
        let first = Value::Str(SharedText::from_slice(alloc, b"kept")?);
        first.share()?
    };
    match second {
        Value::Str(text) => assert_eq!(rt; text.as_slice(), b"kept".as_slice()),
        _ => assert!(rt; false),
    }
    Ok(())
}

#[test]
fn faults_are_told_by_their_names(rt: HostRuntime) -> Result<(), Fail> {
    let alloc = rt.alloc();
    assert_eq!(rt;
        format!(in alloc; "{}", Fault::ZeroDivision)?.as_str(),
        "ZeroDivision"
    );
    assert_eq!(rt;
        format!(in alloc; "{}", Fault::TooDeep)?.as_str(),
        "TooDeep"
    );
    Ok(())
}
