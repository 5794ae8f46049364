// The bytes round the values in the text of a collection.

ghost use Rattle.std.specs.Prelude.{◌≡◌, List};
ghost use Rattle.rb_machine.specs.Drafts as spec;
ghost use Rattle.rb_render.specs.Drafting.{form_of, mark_text};

use crate::draft::TextForm;
use rb_model::Sort;

/// Bytes round values.
#[derive(Clone, Copy)]
pub(crate) enum Mark {
    Nothing,
    /// Between two elements or pairs.
    Comma,
    OpenBracket,
    CloseBracket,
    OpenBrace,
    CloseBrace,
    /// Between a key and its value.
    Arrow,
    /// An array inside itself, a hash, and an array that is written line by line.
    ArrayAgain,
    HashAgain,
    LineAgain,
    Feed,
}

impl Mark {
    /// The bytes.
    pub(crate) fn text(self) -> &'static [u8]
        ensures { result.now ≡ mark_text self }
    {
        match self {
            Mark::Nothing => b"",
            Mark::Comma => b", ",
            Mark::OpenBracket => b"[",
            Mark::CloseBracket => b"]",
            Mark::OpenBrace => b"{",
            Mark::CloseBrace => b"}",
            Mark::Arrow => b"=>",
            Mark::ArrayAgain => b"[...]",
            Mark::HashAgain => b"{...}",
            Mark::LineAgain => b"[...]\n",
            Mark::Feed => b"\n",
        }
    }
}

/// What stands between two elements of an array.
pub(crate) fn comma(form: TextForm) -> Mark
    ensures { mark_text result ≡ spec.comma (form_of form) }
{
    match form {
        TextForm::Inspected => Mark::Comma,
        TextForm::Lined => Mark::Nothing,
    }
}

/// What ends an array.
pub(crate) fn closing(form: TextForm) -> Mark
    ensures { mark_text result ≡ spec.closing (form_of form) }
{
    match form {
        TextForm::Inspected => Mark::CloseBracket,
        TextForm::Lined => Mark::Nothing,
    }
}

/// What is written of a collection inside itself.
pub(crate) fn again(form: TextForm, sort: Sort) -> Mark
    ensures { mark_text result ≡ spec.again (form_of form) sort }
{
    match form {
        TextForm::Inspected => match sort {
            Sort::Pairs => Mark::HashAgain,
            Sort::Object(_) | Sort::List | Sort::Mutex | Sort::Thread => Mark::ArrayAgain,
        },
        TextForm::Lined => Mark::LineAgain,
    }
}
