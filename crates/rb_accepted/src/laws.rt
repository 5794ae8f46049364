// The laws of accepted programs.

ghost use Rattle.rb_accepted.specs.Laws as law;

/// A program that ordered tokens spell, and that keeps the rules of names, has nothing that is not built.
pub fn accepted_has_all()
    ensures { law.AcceptedHasAll }
{}

/// The identifiers and the symbols among the tokens of a source are words.
pub fn lexed_are_words()
    ensures { law.LexedAreWords }
{}

/// A program that ordered tokens spell, and that keeps the rules of names, has code: each of its locals has a slot where it stands, each thread
/// finds what it captures, and methods and attributes are named by words.
pub fn accepted_has_code()
    ensures { law.AcceptedHasCode }
{}
