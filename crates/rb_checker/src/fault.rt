// Why a program breaks the rules of names.

use rb_tree::Span;

/// A rule of names that a program breaks, with the place where.
#[derive(Clone, Copy, Debug, PartialEq, Eq)]
pub enum CheckFault {
    /// A call without receiver finds no method.
    UnknownName(Span),
    /// An object is made of a class that is not there.
    UnknownClass(Span),
    /// A class, a method or a parameter has a name that was given before, or a class the name of one that is built in.
    TwiceDefined(Span),
    /// A thread uses a local of outside that may still be assigned.
    UnsettledCapture(Span),
    /// A class has more than 32 instance variables, or a script more than 256 global variables.
    TooManyFields(Span),
    /// A script has more than 256 classes.
    TooManyClasses(Span),
    /// `break` or `next` where there is no loop and no block, or `return` where there is no method.
    BreakOutside(Span),
    /// `self` or an instance variable outside the methods of classes.
    SelfOutside(Span),
}
