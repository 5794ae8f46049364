// The laws of the machine, for every script.

ghost use Rattle.rb_machine.specs.Laws as law;
ghost use Rattle.rb_machine.specs.Collections as told;

/// From every state the machine comes to something that it wants of the outside, or to the end: nothing is stuck, and nothing
/// runs for good in silence.
pub fn never_stuck()
    ensures { law.IsNeverStuck }
{}

/// A script with a budget of steps has at most one run: the bytes, the end and the count of steps are determined.
pub fn one_run()
    ensures { law.HasOneRun }
{}

/// A script with a budget of steps comes to its end, unless it asks something of a thing that is not there.
pub fn always_finishes()
    ensures { law.AlwaysFinishes }
{}

/// Steps are the nodes that begin, the iterations of blocks that begin, and the elements and pairs whose text begins. Nothing else
/// costs one, and no reply does.
pub fn steps()
    ensures counted { law.CountsSteps }
    ensures replies { law.RepliesAreFree }
{}

/// `break` ends the nearest loop, or the nearest call with a block, whose value is then nil.
pub fn break_ends()
    ensures loops { law.BreakEndsLoops }
    ensures blocks { law.BreakEndsBlocks }
{}

/// `next` ends the iteration, and the loop or the call goes on.
pub fn next_goes_on()
    ensures { law.NextGoesOn }
{}

/// `return` ends the method, out of all loops and blocks in it, and the caller has the value and its own locals.
pub fn return_ends()
    ensures { law.ReturnEndsMethods }
{}

/// A greater budget changes nothing that was done with a smaller one: an end that is not for want of steps stays, with its bytes and
/// its count, and what was shown is shown first. As many steps as were begun are enough; with fewer a script ends for want of them, and
/// then it has begun all that it may.
pub fn budgets()
    ensures kept { law.MoreStepsChangeNothing }
    ensures front { law.MoreStepsShowMore }
    ensures enough { law.StepsTakenAreEnough }
    ensures early { law.FewerStepsEndEarly }
    ensures used { law.StepsAreUsedUp }
{}

/// Division rounds toward minus infinity: the quotient and the rest make up the dividend, and the rest is 0, or has the sign of the
/// divisor and is smaller; no other two numbers do.
pub fn division()
    ensures whole { law.DividesBack }
    ensures rest { law.RestsAreSmall }
    ensures one { law.DividesOneWay }
    ensures answered { law.DivisionsAnswer }
{}

/// Each iteration of a block has its own locals new, and behind it they are gone.
pub fn block_locals()
    ensures new { law.OwnLocalsAreNew }
    ensures given { law.ParametersAreGiven }
    ensures gone { law.OwnLocalsGo }
    ensures behind { law.IterationsLeaveTheRest }
{}

/// The names in scope are at each state those that the text gives: those of the top level or the method, and those of the blocks round
/// the place.
pub fn scopes()
    ensures { law.ScopesFollowTheText }
{}

/// An assignment changes one name, where it is innermost: one of the block's, or else one round it.
pub fn assignments()
    ensures one { law.AssignsOne }
    ensures own { law.AssignsOwn }
    ensures outside { law.AssignsOutside }
{}

/// What a part of a script does is its own: the machine does the same whatever waits behind that part, until it gives a value or is left.
pub fn any_context()
    ensures { law.ContextChangesNothing }
{}

/// The receiver comes first, then the arguments, each once and from the left, and then the call.
pub fn calls_in_turn()
    ensures receiver { law.ReceiversComeFirst }
    ensures once { law.ArgumentsComeOnce }
    ensures turn { law.ArgumentsComeInTurn }
{}

/// `new` makes an object, calls `initialize` where there is one, and its value is the object.
pub fn new_objects()
    ensures made { law.NewMakesAnObject }
    ensures without { law.WithoutInitialize }
    ensures value { law.NewGivesTheObject }
{}

/// The text of an object in a literal, and as `puts` and `print` write it, is the string that `to_s` of its class answers, where that
/// has no parameters. Where it answers no string, or is not there, or has parameters, the text is `#<Name>`, with the name of the class.
pub fn texts_of_objects()
    ensures wanted { law.TextsAreWanted }
    ensures asked { law.ToSIsAsked }
    ensures joined { law.StringsAreTexts }
    ensures told { law.OthersAreTold }
{}

/// The literal of an array makes one of the values of its parts, and that of a hash one of its pairs: a key that stands twice keeps its
/// first place and has the last value, and an array or a hash is no key.
pub fn literals()
    ensures { law.LiteralsMakeThings }
{}

/// A walk over an array asks for its length before each iteration and then for the element, so its block sees what was done to the array
/// meanwhile. `map` keeps what each iteration gives, and `select` the elements for which that is true.
pub fn walks()
    ensures asked { law.WalksAskEachTime }
    ensures kept { law.WalksKeep }
{}

/// A collection is read by one copy when its text begins, and inside itself it is told by dots. No more than 1,000 nodes and
/// collections are begun at once.
pub fn texts_of_collections()
    ensures { law.CollectionsAreReadOnce }
{}

/// While things stay as they are, the texts of collections are what is told of them by recursion over what they hold: `[a, b]`,
/// `{k=>v}`, and dots for one that stands inside itself. One step goes for each element and each pair. So it is where a text is asked, and
/// as `puts`, `print` and `p` show values, where no object that is written by itself has a `to_s` of the script; and so go a run of a
/// script alone, and a thread with what it alone reaches.
pub fn told_texts()
    ensures inspected { told.InspectedAsTold }
    ensures asked { told.TextsAsTold }
    ensures puts { told.PutsAsTold }
    ensures print { told.PrintAsTold }
    ensures p { told.PAsTold }
    ensures run { told.RunsAsTold }
    ensures thread { told.ThreadsAsTold }
{}

/// With fewer steps, or where it would be longer than a text may be, such a text does not come, and the thread ends for that: for want of
/// steps only where they are too few, and with a fault only where the text is too long.
pub fn texts_that_do_not_come()
    ensures inspected { told.InspectedFails }
    ensures puts { told.PutsFails }
    ensures print { told.PrintFails }
    ensures p { told.PFails }
{}

/// The right side of `||`, `||=`, `&&` and `&&=` is evaluated only where the left one does not decide.
pub fn right_sides()
    ensures or { law.OrGoesOnWhereFalse }
    ensures and { law.AndGoesOnWhereTrue }
{}

/// A main thread that asks nothing of what is shared does what its script does alone; and where it is cut short, it has shown a front of
/// what its script shows alone.
pub fn main_thread()
    ensures whole { law.DoesAsAlone }
    ensures front { law.ShowsAFront }
{}
