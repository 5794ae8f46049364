// The laws of the grammar and of its reader.

ghost use Rattle.rb_grammar.specs.Laws as law;

/// What the reader reads is spelled so.
pub fn sound()
    ensures { law.IsSound }
{}

/// What is spelled within the limits is read so.
pub fn complete()
    ensures { law.IsComplete }
{}

/// The reader has an answer for any tokens.
pub fn total()
    ensures { law.IsTotal }
{}

/// A phrase is read as its rule says, with the phrases in it read so.
pub fn by_rules()
    ensures { law.ReadsByRules }
{}

/// One token list spells one script, and so one program, whatever the limits.
pub fn one_tree()
    ensures script { law.HasOneScript }
    ensures program { law.HasOneProgram }
{}

/// Where a token is refused, no script of any height and nesting begins with the tokens up to and including it.
pub fn nothing_begins_so()
    ensures { law.RefusesRightly }
{}

/// Where the last token is the one end, the reader refuses one of the tokens or reads them all.
pub fn ends_with_tokens()
    ensures { law.EndsWithTokens }
{}

/// Answers hang on no token behind the one at which the reader ends, but for a look at whether a token is glued to the minus
/// before it, and stay within wider limits.
pub fn local()
    ensures refused { law.RefusesLocally }
    ensures read { law.ReadsLocally }
{}

/// Something is nested too deep only where a limit is passed, for heights from 2 on, and always where a script is not within
/// the limits.
pub fn too_nested()
    ensures only { law.NestsRightly }
    ensures always { law.KeepsLimits }
{}

/// Each name that the tokens of a script give has its number.
pub fn names_all()
    ensures { law.NamesAll }
{}

/// The names that the tokens give, and the bodies of threads, stand in the order of the text.
pub fn names_in_order()
    ensures { law.GivesInOrder }
{}

/// The bodies of threads are numbered from 0 in the order of the text, where no two blocks stand at one place.
pub fn bodies_numbered()
    ensures { law.NumbersBodies }
{}

/// What the trees of a script say of their nodes is so, and no node is higher than the limit, for limits from 2 on.
pub fn faithful()
    ensures { law.IsFaithfulTo }
{}
