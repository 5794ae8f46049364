// Where reading stands.

/// The quote round a text.
#[derive(Clone, Copy, Debug, PartialEq, Eq)]
pub(crate) enum Quote {
    /// `'`
    Single,
    /// `"`
    Double,
}

/// What reading stands in.
#[derive(Clone, Copy, Debug, PartialEq, Eq)]
pub(crate) enum Mode {
    /// Code, with so many braces of its own open.
    Code(u32),
    /// A text, from its opening quote on.
    Text(Quote, u32),
}
