// Tokens of several classes, as rules of the grammar ask for them.

ghost use Rattle.std.specs.Prelude.{◌≡◌, ◌&&◌, not, true, false, [], ◌∷◌, MatchOption, MatchResult};
ghost use Rattle.rb_grammar.specs.Look as look;
ghost use Rattle.rb_grammar.specs.Grammar.{modifiers, assignment_marks, identifiers, allowed, closing};
ghost use Rattle.rb_grammar.specs.Heads.{begins_statement, begins_expression, next_class};
ghost use Rattle.rb_grammar.specs.Rule.{next_meets};
ghost use Rattle.rb_cursor.specs.Class.{class_by};
ghost use Rattle.rb_cursor.specs.Word.{TookWord};
ghost use Rattle.rb_cursor.specs.State.{Took, Missed};

use rb_cursor::{Class, Cursor, ParseFault, Word, text_of};
use rb_lexer::Token;

/// Whether the next token may begin a modifier.
fn is_modifier(cursor: &Cursor<'_>) -> bool
    ensures { result ≡ next_meets (look.one_of modifiers) cursor.now.rest }
{
    cursor.is(Class::IfWord)
        || cursor.is(Class::UnlessWord)
        || cursor.is(Class::WhileWord)
        || cursor.is(Class::UntilWord)
}

/// Takes the next token where it begins a modifier.
pub fn accept_modifier<'t>(cursor: &mut Cursor<'t>) -> Option<&'t Token>
    ensures taken { MatchOption result ((next_meets (look.one_of modifiers) cursor.old.rest ≡ false) × (cursor.new ≡ cursor.old)) (λ t. Took (look.one_of modifiers) cursor.old cursor.new t.now) }
{
    if !is_modifier(cursor) {
        return None;
    }
    cursor.take().ok()
}

/// Whether the next token is the mark of an assignment.
pub fn is_assignment_mark(cursor: &Cursor<'_>) -> bool
    ensures { result ≡ next_meets (look.one_of assignment_marks) cursor.now.rest }
{
    cursor.is(Class::Assign)
        || cursor.is(Class::PlusAssign)
        || cursor.is(Class::MinusAssign)
        || cursor.is(Class::TimesAssign)
        || cursor.is(Class::OverAssign)
        || cursor.is(Class::ModuloAssign)
        || cursor.is(Class::OrAssign)
        || cursor.is(Class::AndAssign)
}

/// Whether the next token is an identifier.
fn is_identifier(cursor: &Cursor<'_>) -> bool
    ensures { result ≡ next_meets (look.one_of identifiers) cursor.now.rest }
{
    cursor.is(Class::Word)
        || cursor.is(Class::Marked)
        || cursor.is(Class::Attribute)
        || cursor.is(Class::New)
}

/// Takes an identifier.
pub fn expect_identifier<'t>(cursor: &mut Cursor<'t>) -> Result<Word<'t>, ParseFault>
    ensures word { MatchResult result (TookWord (look.one_of identifiers) cursor.old cursor.new) (Missed (look.one_of identifiers) cursor.old) }
{
    if !is_identifier(cursor) {
        return Err(cursor.refusal());
    }
    let token = cursor.take()?;
    Ok(Word {
        text: text_of(&token.kind),
        at: token.at,
    })
}

/// Takes the next token where it is of a class and not spaced.
pub fn accept_glued<'t>(cursor: &mut Cursor<'t>, class: Class) -> Option<&'t Token>
    ensures taken { MatchOption result ((next_meets (look.glued (class_by class)) cursor.old.rest ≡ false) × (cursor.new ≡ cursor.old)) (λ t. Took (look.glued (class_by class)) cursor.old cursor.new t.now) }
{
    if !cursor.is_glued(class) {
        return None;
    }
    cursor.take().ok()
}

/// Takes the next token where it is of a class and may stand.
pub fn accept_allowed<'t>(
    cursor: &mut Cursor<'t>,
    may_stand: bool,
    class: Class,
) -> Option<&'t Token>
    ensures taken { MatchOption result ((next_meets (allowed may_stand (class_by class)) cursor.old.rest ≡ false) × (cursor.new ≡ cursor.old)) (λ t. Took (allowed may_stand (class_by class)) cursor.old cursor.new t.now) }
{
    if !may_stand {
        return None;
    }
    cursor.accept(class)
}

/// Whether a class may begin an expression that is no choice and no loop.
fn begins_value(class: Class) -> bool
    ensures { result ≡ (not (look.one_of modifiers (class_by class) true) && look.one_of begins_expression (class_by class) true) }
{
    matches!(
        class,
        Class::Bang
            | Class::Minus
            | Class::Int
            | Class::TextOpen
            | Class::Symbol
            | Class::NilWord
            | Class::TrueWord
            | Class::FalseWord
            | Class::SelfWord
            | Class::Field
            | Class::Global
            | Class::Word
            | Class::Marked
            | Class::Attribute
            | Class::New
            | Class::Constant
            | Class::OpenBracket
            | Class::OpenBrace
            | Class::OpenParen
    )
}

/// Whether the next token may begin the value behind a `return`.
pub fn is_value(cursor: &Cursor<'_>) -> bool
    ensures { result ≡ (not (look.one_of modifiers (next_class cursor.now.rest) true) && look.one_of begins_expression (next_class cursor.now.rest) true) }
{
    begins_value(cursor.class())
}

/// Whether the next token may begin a statement.
pub fn is_statement(cursor: &Cursor<'_>) -> bool
    ensures { result ≡ look.one_of begins_statement (next_class cursor.now.rest) true }
{
    let class = cursor.class();
    let begins_leaving = matches!(
        class,
        Class::ReturnWord | Class::BreakWord | Class::NextWord
    );
    let begins_control = matches!(
        class,
        Class::IfWord | Class::UnlessWord | Class::WhileWord | Class::UntilWord
    );
    begins_leaving || begins_control || begins_value(class)
}

/// Takes the name of a class.
pub fn expect_class<'t>(cursor: &mut Cursor<'t>) -> Result<Word<'t>, ParseFault>
    ensures word { MatchResult result (TookWord (look.is look.constant) cursor.old cursor.new) (Missed (look.is look.constant) cursor.old) }
{
    let token = cursor.expect(Class::Constant)?;
    Ok(Word {
        text: text_of(&token.kind),
        at: token.at,
    })
}

/// What closes a block.
pub fn closing(in_braces: bool) -> Class
    ensures { class_by result ≡ closing in_braces }
{
    if in_braces {
        Class::CloseBrace
    } else {
        Class::EndWord
    }
}

/// Takes what stands between the condition of a loop and its body.
pub fn expect_loop_body<'t>(cursor: &mut Cursor<'t>) -> Result<&'t Token, ParseFault>
    ensures took { MatchResult result (λ t. Took (look.one_of (look.do_word ∷ look.line ∷ [])) cursor.old cursor.new t.now) (Missed (look.one_of (look.do_word ∷ look.line ∷ [])) cursor.old) }
{
    if !(cursor.is(Class::DoWord) || cursor.is(Class::Line)) {
        return Err(cursor.refusal());
    }
    cursor.take()
}

/// Takes the word of a choice.
pub fn expect_choice<'t>(cursor: &mut Cursor<'t>) -> Result<&'t Token, ParseFault>
    ensures took { MatchResult result (λ t. Took (look.one_of (look.if_word ∷ look.unless_word ∷ [])) cursor.old cursor.new t.now) (Missed (look.one_of (look.if_word ∷ look.unless_word ∷ [])) cursor.old) }
{
    if !(cursor.is(Class::IfWord) || cursor.is(Class::UnlessWord)) {
        return Err(cursor.refusal());
    }
    cursor.take()
}

/// Takes the word of a loop.
pub fn expect_loop<'t>(cursor: &mut Cursor<'t>) -> Result<&'t Token, ParseFault>
    ensures took { MatchResult result (λ t. Took (look.one_of (look.while_word ∷ look.until_word ∷ [])) cursor.old cursor.new t.now) (Missed (look.one_of (look.while_word ∷ look.until_word ∷ [])) cursor.old) }
{
    if !(cursor.is(Class::WhileWord) || cursor.is(Class::UntilWord)) {
        return Err(cursor.refusal());
    }
    cursor.take()
}
