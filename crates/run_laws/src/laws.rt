// The laws of whole runs, for every script and every order of the entries of its threads.

ghost use Rattle.run_laws.specs.Laws as law;

/// What is shared is closed: at each point of the one order of all entries, each reference that a shared thing mentions is to a shared thing,
/// and of its sort; and so is each reference that any thread was told. So whoever follows references of shared things meets shared things alone,
/// and an entry asks something of a thing that was shared before.
pub fn shared_is_closed()
    ensures things { law.SharedIsClosed }
    ensures told { law.ToldIsShared }
    ensures asked { law.AskedIsShared }
{}

/// What a thread names is its own or shared: each reference of its state, and each that a thing of its private store mentions, is to a thing of
/// this store, or to a shared one.
pub fn own_or_shared()
    ensures { law.ThreadsNameShared }
{}

/// What is shared is private to no thread: at each such point no shared thing is in the private store of any thread.
pub fn apart()
    ensures { law.SharedIsApart }
{}

/// A script that starts no thread does with its shared things what it does alone, in one store: the bytes of its prints, its end, and the step
/// of its last entry are the same. Where memory, the sink or a full heap cuts it short, it has shown a front of what it shows alone.
pub fn does_as_alone()
    ensures whole { law.DoesAsAlone }
    ensures front { law.ShowsAFront }
{}
