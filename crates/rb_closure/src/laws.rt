// The laws of closure, for every script.

ghost use Rattle.rb_closure.specs.Closure as closure;
ghost use Rattle.rb_closure.specs.Laws as law;

/// A thread can only name what it made and still has, and what it was told: each value of its state, and each value that a thing of its
/// private store mentions, is no reference, or one to a thing that the store has, or one that came with its start or by an entry of its log,
/// or the one of the global variables. So each thing of which it asks something is one that it has, or was told of. Each entry of its log asks
/// a thing of which it was told before; and what it hands over, and what the things that move with it mention, was told before or moves too.
pub fn closed()
    ensures values { closure.ThreadsAreClosed }
    ensures asked { closure.AsksAreKnown }
    ensures entries { closure.EntriesNameTold }
    ensures log { closure.WholeLogNamesTold }
{}

/// A script that starts no thread has a run alone with each budget of steps: it comes to its end, and asks nothing of a thing that is
/// not there.
pub fn alone_exists()
    ensures { law.RunsAlone }
{}

/// The main thread of a script that starts no thread and names no global variable prints and ends, with nil or without a value, and does
/// nothing else with others: nothing moves, and no other call is refused. So it does what its script does alone, unless it is cut short.
pub fn shares_nothing()
    ensures own { law.SharesNothing }
    ensures alone { law.DoesAsAlone }
{}

/// What a main thread asks of others is the global variables and what moved to them before, where no reply tells of anything else.
pub fn main_asks_what_moved()
    ensures { law.MainAsksMoved }
{}
