// Laws of histories, for every order of the entries of all threads in which each step is the plain one. Nothing here runs: each function is a
// law, which is its contract.

ghost use Rattle.rb_shared.specs.Laws as law;

/// A thread whose end is told to another was started before that, and this very end stands before that in the one order of all entries.
pub fn joins()
    ensures { law.JoinsComeBehindEnds }
{}

/// A join by a thread that is not the maker frees no place among the slots.
pub fn slots()
    ensures { law.OthersFreeNoSlot }
{}

/// Only the owner of a mutex can give it back.
pub fn owners()
    ensures { law.OwnersAloneUnlock }
{}

/// Between two takings of one mutex, the thread that took it first has given it back, or has ended.
pub fn mutexes()
    ensures { law.LocksExclude }
{}

/// A thread that has ended owns no mutex.
pub fn ended()
    ensures { law.EndedOwnNothing }
{}

/// The history of one order of all entries is legal, with each read at its point.
pub fn one_order()
    ensures { law.OneOrderIsLegal }
{}
