// What is handed on with the turn.

ghost use Rattle.std.specs.Prelude.{◌≡◌, ◌≤◌, ◌<◌, true, false, length, position, IfErr, IfOk, IfSome};
ghost use Rattle.rb_model.specs.Log.{Print};
ghost use Rattle.shared_run.specs.Run.{SinkDid, SinkRefused};
ghost use Rattle.heap_core.specs.Ending.{ended_by, over_at, over_line};
ghost use Rattle.heap_core.specs.Handing.{sunk_of};
ghost use Rattle.heap_core.specs.Opening.{first_table};
ghost use Rattle.heap_core.specs.Owning.{owner_told};
ghost use Rattle.heap_core.specs.Owning as owning;
ghost use Rattle.heap_core.specs.Starting.{line_for, started_on};
ghost use Rattle.heap_core.specs.Starting as starting;

use crate::line::Line;
use rb_edge::{Sink, write_all};
use std::alloc::Global;
use std::marker::Model;

/// What the pass has that has the turn: the sink, and the table of threads.
#[derive(Drop)]
pub struct Turn<K: Sink> {
    out: K,
    /// Whether the sink has refused a print. Nothing is written from then on.
    failed: bool,
    /// How many threads were started.
    started: u64,
    /// A line for each slot: free, or that of a thread.
    lines: Vec<Option<Line>>,
}

impl<K: Sink> Model for Turn<K> {
    ghost use Rattle.heap_core.specs.Handing.{Handed, sunk_of};

    ghost Value = { Handed };

    ghost view = { λ t. record { sink = sunk_of K.told K.faults t.out t.failed; started = t.started; lines = t.lines.items } };
}

/// Whether a line is that of this thread, which goes on.
fn is_going(thread: u64, line: Option<Line>) -> bool
    ensures { result ≡ owning.is_going thread line }
{
    match line {
        Some(line) => line.number == thread && !line.over,
        None => false,
    }
}

/// Whether a line is that of no thread.
fn is_free(line: Option<Line>) -> bool
    ensures { result ≡ starting.is_free line }
{
    line.is_none()
}

/// A line behind the end of this thread.
fn end_line(thread: u64, line: Option<Line>) -> Option<Line>
    ensures { result ≡ over_line thread line }
{
    match line {
        Some(line) => Some(Line {
            number: line.number,
            over: line.over || line.number == thread,
        }),
        None => None,
    }
}

/// The lines behind it.
fn end_lines(lines: &mut [Option<Line>], thread: u64)
    ensures { lines.new ≡ over_at thread lines.old }
{
    'lines: for i in 0..lines.len() {
        lines[i] = end_line(thread, lines[i]);
    }
}

impl<K: Sink> Turn<K> {
    /// The sink as it is, and the line of the main thread. The sink comes back where there is no memory.
    pub(crate) fn new(alloc: Global, slots: u64, out: K) -> Result<Turn<K>, K>
        requires some { 1 ≤ slots }
        ensures sink { IfOk result (λ turn. turn.sink ≡ sunk_of K.told K.faults out false) }
        ensures started { IfOk result (λ turn. turn.started ≡ 0) }
        ensures lines { IfOk result (λ turn. turn.lines ≡ first_table slots) }
        ensures back { IfErr result (λ sink. sink ≡ out) }
    {
        let Ok(mut lines) = vec![in alloc; None; slots as usize] else {
            return Err(out);
        };
        lines[0] = Some(Line {
            number: 0,
            over: false,
        });
        Ok(Turn {
            out,
            failed: false,
            started: 0,
            lines,
        })
    }

    /// The sink.
    pub(crate) fn into_out(self) -> K
        ensures told { K.told result ≡ self.sink.told }
        ensures faults { K.faults result ≡ self.sink.faults }
    {
        let Turn {
            out,
            failed: _,
            started: _,
            lines: _,
        } = self;
        out
    }

    /// Whether the thread of this number goes on.
    fn goes(&self, thread: u64) -> bool
        ensures { result ≡ owning.goes self.now.lines thread }
    {
        self.lines.iter().any(|line| is_going(thread, *line))
    }

    /// Whom the owner word of a mutex names.
    pub(crate) fn owner(&self, word: u64) -> Option<u64>
        ensures told { result ≡ owner_told self.now.lines word }
        ensures few { IfSome result (λ thread. thread < word) }
    {
        if word == 0 {
            return None;
        }
        let thread = word - 1;
        if self.goes(thread) {
            Some(thread)
        } else {
            None
        }
    }

    /// The line for a thread that one of this generation starts: the first that is free, and none where that one stands too deep.
    pub(crate) fn line_for(&self, generation: u64) -> Option<usize>
        ensures { result ≡ line_for generation self.now.lines }
    {
        let last = (self.lines.len() as u64).saturating_sub(1);
        if last <= generation {
            return None;
        }
        self.free_line()
    }

    /// The first line that is free.
    fn free_line(&self) -> Option<usize>
        ensures { result ≡ position starting.is_free self.now.lines }
    {
        self.lines.iter().position(|line| is_free(*line))
    }

    /// How many threads were started.
    pub(crate) fn started(&self) -> u64
        ensures { result ≡ self.now.started }
    {
        self.started
    }

    /// A thread was started, which has this line.
    pub(crate) fn start(&mut self, line: usize)
        requires within { line < length self.old.lines }
        requires few { self.old.started < 18446744073709551615 }
        ensures { self.new ≡ started_on line self.old }
    {
        self.started += 1;
        self.lines[line] = Some(Line {
            number: self.started,
            over: false,
        });
    }

    /// The line of this thread says from now on that it has ended.
    pub(crate) fn end(&mut self, thread: u64)
        ensures ended { self.new ≡ ended_by thread self.old }
    {
        end_lines(&mut self.lines, thread);
    }

    /// Writes a text whole. Whether the sink took it.
    pub(crate) fn print(&mut self, text: &[u8]) -> bool
        ensures lines { self.new.lines ≡ self.old.lines }
        ensures started { self.new.started ≡ self.old.started }
        ensures done { result ≡ true → SinkDid (Print text.now) self.old.sink self.new.sink }
        ensures refused { result ≡ false → SinkRefused (Print text.now) self.old.sink self.new.sink }
    {
        if self.failed {
            return false;
        }
        if let Err(_) = write_all(&mut self.out, text) {
            self.failed = true;
            return false;
        }
        true
    }
}
