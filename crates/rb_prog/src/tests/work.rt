// The command `work`, whose sums come from a reckoning of its formula apart from this program.

use super::{Outcome, ran, script};
use std::alloc::Global;
use std::sync::Wait;
use std::test::Fail;
use std::thread::Threads;

/// Words behind `work`, and what is printed.
const PRINTED: [(&[&str], &str); 7] = [
    (&["--number", "1", "--size", "4"], "1238\n1238\n"),
    (&["--size=4", "--number=1", "--"], "1238\n1238\n"),
    (&["--number=7", "--size", "100"], "49622\n1902\n"),
    // With fewer places than threads, some threads fill none.
    (&["--number", "2147483647", "--size", "3"], "1683\n2333\n"),
    // The ends of both ranges.
    (&["--number", "0", "--size", "1"], "345\n351\n"),
    (&["--number=2147483647", "--size=1"], "748\n2695\n"),
    (
        &["--number=2147483647", "--size=100000"],
        "50033848\n1834\n",
    ),
];

/// Words behind `work` that are none of the program's.
const REFUSED: [&[&str]; 8] = [
    &[],
    &["--number", "1"],
    &["--number", "1", "--size", "4", "a.rb"],
    &["--number", "1", "--size", "4", "--steps", "5"],
    &["--number", "2147483648", "--size", "4"],
    &["--number", "-1", "--size", "4"],
    &["--number", "1", "--size", "0"],
    &["--number", "1", "--size", "100001"],
];

/// Whether a run of `work` with these words, beside a file and with writes that fail at the listed numbers, ends so, with these bytes on `out` and
/// this line on `err`.
fn ends_so<R: Threads + Wait + Sync>(
    rt: &R,
    alloc: Global,
    behind: &[&str],
    failing: Vec<u64>,
    status: u8,
    output: &str,
    line: &str,
) -> Result<bool, Fail> {
    let mut texts = vec![in alloc; "work"]?;
    texts.extend_from_slice(behind)?;
    let mut files = script(alloc, b"puts 1", Vec::new(alloc))?;
    let Outcome { report, err } = ran(rt, alloc, texts.as_slice(), &mut files, failing)?;
    Ok(
        report.status == status
            && report.out.bytes() == output.as_bytes()
            && err.bytes() == line.as_bytes(),
    )
}

#[test]
fn four_threads_fill_the_array_and_add_to_the_sum(rt: HostRuntime) -> Result<(), Fail> {
    let alloc = rt.alloc();
    for (behind, output) in PRINTED.iter() {
        assert!(rt;
            ends_so(&rt, alloc, behind, Vec::new(alloc), 0, output, "")?,
            "{output}"
        );
    }
    Ok(())
}

#[test]
fn other_words_behind_work_are_status_2(rt: HostRuntime) -> Result<(), Fail> {
    let alloc = rt.alloc();
    for behind in REFUSED.iter() {
        assert!(rt; ends_so(&rt, alloc, behind, Vec::new(alloc), 2, "", "rbso: usage\n")?);
    }
    Ok(())
}

#[test]
fn a_failing_write_ends_work_too(rt: HostRuntime) -> Result<(), Fail> {
    let alloc = rt.alloc();
    let behind = ["--number=1", "--size=4"];
    let failing = vec![in alloc; 2]?;
    assert!(rt;
        ends_so(
            &rt,
            alloc,
            &behind,
            failing,
            5,
            "1238\n",
            "rbso: sink failed\n"
        )?
    );
    Ok(())
}
