// The lines on standard error.

ghost use Rattle.std.specs.Prelude.{◌≡◌, ◌≤◌, ◌<◌, ℕ, List, map, length};
ghost use Rattle.std.specs.List.{concat};
ghost use Rattle.std.specs.Borrow.{Bor};
ghost use Rattle.rb_tree.specs.Place.{line_of, column_of};
ghost use Rattle.rb_edge.specs.Edge.{Rose, Told};
ghost use Rattle.rb_model.specs.Ends.{over};
ghost use Rattle.rb_prog.specs.Remarks.{fault_line, steps_line, full_line, refused_as, refusal_line, end_line};

use crate::refusal::{Refusal, Row, row_of};
use itoa::Buffer;
use rb_edge::{Sink, write_all};
use rb_model::{End, Fault};
use rb_tree::line_column;

/// The words are none of the program's.
pub(crate) const USAGE: &str = "rbso: usage\n";

/// There is no file under the path.
pub(crate) const SOURCE_MISSING: &str = "rbso: source missing\n";

/// A read of the file failed.
pub(crate) const SOURCE_FAILED: &str = "rbso: source failed\n";

/// Memory is wanted.
pub(crate) const MEMORY: &str = "rbso: memory\n";

/// Standard output failed.
pub(crate) const SINK_FAILED: &str = "rbso: sink failed\n";

/// Writes a line. Where it fails, nothing more is done.
pub(crate) fn tell<E: Sink>(err: &mut E, line: &str)
    ensures told { Told (E.told err.old) (E.told err.new) line.now (Rose (E.faults err.old) (E.faults err.new)) }
    ensures rises { E.faults err.old ≤ E.faults err.new }
{
    if let Err(_) = write_all(err, line.as_bytes()) {
        return;
    }
}

/// Writes the pieces of a line, one behind the other, up to the first that fails.
fn tell_pieces<E: Sink>(err: &mut E, pieces: &[&str])
    ensures told { Told (E.told err.old) (E.told err.new) (concat (map (λ (piece : Bor (List ℕ)). piece.now) pieces.now)) (Rose (E.faults err.old) (E.faults err.new)) }
    ensures rises { E.faults err.old ≤ E.faults err.new }
{
    'pieces: for piece in pieces {
        if let Err(_) = write_all(err, piece.as_bytes()) {
            return;
        }
    }
}

/// The line and the column of a byte of a source; for a byte behind its end, those of the end.
fn position(source: &[u8], at: u32) -> (u32, u32)
    requires { length source.now ≤ 1048577 }
    ensures line { result.0 ≡ line_of source.now at }
    ensures column { result.1 ≡ column_of source.now at }
{
    if at as usize > source.len() {
        line_column(source, source.len() as u32)
    } else {
        line_column(source, at)
    }
}

/// Writes a refusal, with its place where it has one.
fn tell_row<E: Sink>(err: &mut E, source: &[u8], row: Row)
    requires { length source.now ≤ 1048577 }
    ensures told { Told (E.told err.old) (E.told err.new) (refused_as source.now row.number row.name.now row.place) (Rose (E.faults err.old) (E.faults err.new)) }
    ensures rises { E.faults err.old ≤ E.faults err.new }
{
    let mut numbers = Buffer::new();
    let number = numbers.format(row.number);
    match row.place {
        None => tell_pieces(err, &["rbso: refused ", number, " ", row.name, "\n"]),
        Some(at) => {
            let (line, column) = position(source, at);
            let mut lines = Buffer::new();
            let mut columns = Buffer::new();
            let line = lines.format(line);
            let column = columns.format(column);
            tell_pieces(
                err,
                &[
                    "rbso: refused ",
                    number,
                    " ",
                    row.name,
                    " at ",
                    line,
                    ":",
                    column,
                    "\n",
                ],
            );
        }
    }
}

/// Writes why a source has no run.
pub(crate) fn tell_refusal<E: Sink>(err: &mut E, source: &[u8], refusal: Refusal)
    requires { length source.now ≤ 1048577 }
    ensures told { Told (E.told err.old) (E.told err.new) (refusal_line source.now refusal) (Rose (E.faults err.old) (E.faults err.new)) }
    ensures rises { E.faults err.old ≤ E.faults err.new }
{
    tell_row(err, source, row_of(refusal));
}

/// Writes by which fault a run ended, and where.
fn tell_fault<E: Sink>(err: &mut E, source: &[u8], fault: Fault, at: u32)
    requires { length source.now ≤ 1048577 }
    ensures told { Told (E.told err.old) (E.told err.new) (fault_line source.now fault at) (Rose (E.faults err.old) (E.faults err.new)) }
    ensures rises { E.faults err.old ≤ E.faults err.new }
{
    let (line, column) = position(source, at);
    let mut lines = Buffer::new();
    let mut columns = Buffer::new();
    let line = lines.format(line);
    let column = columns.format(column);
    tell_pieces(
        err,
        &[
            "rbso: fault ",
            fault.name(),
            " at ",
            line,
            ":",
            column,
            "\n",
        ],
    )
}

/// Writes how many steps a thread may make, of which it needed one more.
fn tell_steps<E: Sink>(err: &mut E, steps: u64)
    ensures told { Told (E.told err.old) (E.told err.new) (steps_line steps) (Rose (E.faults err.old) (E.faults err.new)) }
    ensures rises { E.faults err.old ≤ E.faults err.new }
{
    let mut numbers = Buffer::new();
    tell_pieces(err, &["rbso: steps ", numbers.format(steps), "\n"]);
}

/// Writes how many words of the shared heap were used, and how many more were asked for.
fn tell_full<E: Sink>(err: &mut E, used: u64, asked: u64)
    ensures told { Told (E.told err.old) (E.told err.new) (full_line used asked) (Rose (E.faults err.old) (E.faults err.new)) }
    ensures rises { E.faults err.old ≤ E.faults err.new }
{
    let mut numbers = Buffer::new();
    let mut others = Buffer::new();
    let used = numbers.format(used);
    let asked = others.format(asked);
    tell_pieces(
        err,
        &["rbso: heap full, used ", used, ", asked ", asked, "\n"],
    );
}

/// Writes how a run with so many steps ended; of a value nothing.
pub(crate) fn tell_end<E: Sink>(err: &mut E, source: &[u8], steps: u64, end: &End)
    requires { length source.now ≤ 1048577 }
    ensures told { Told (E.told err.old) (E.told err.new) (end_line source.now steps (over end.now)) (Rose (E.faults err.old) (E.faults err.new)) }
    ensures rises { E.faults err.old ≤ E.faults err.new }
{
    match end {
        End::Value(_) => {}
        End::Raised(fault, at) => tell_fault(err, source, *fault, at.from),
        End::Steps => tell_steps(err, steps),
        End::Full { used, asked } => tell_full(err, *used, *asked),
        End::Sink => tell(err, SINK_FAILED),
        End::Memory => tell(err, MEMORY),
    }
}
