// Sources of many like parts.

use std::alloc::{AllocError, Global};

/// A text so many times, behind another.
pub(super) fn repeated(
    alloc: Global,
    front: &str,
    text: &str,
    times: u32,
) -> Result<String, AllocError> {
    let mut all = String::from_str(alloc, front)?;
    for _ in 0..times {
        all.push_str(text)?;
    }
    Ok(all)
}

/// Lines with the numbers from 100 on, each between a front and a back, behind a beginning and before an end.
pub(super) fn numbered(
    alloc: Global,
    beginning: &str,
    front: &str,
    back: &str,
    end: &str,
    lines: u32,
) -> Result<String, AllocError> {
    let mut all = String::from_str(alloc, beginning)?;
    for number in 100..lines.saturating_add(100) {
        write!(all, "{front}{number}{back}\n")?;
    }
    all.push_str(end)?;
    Ok(all)
}
