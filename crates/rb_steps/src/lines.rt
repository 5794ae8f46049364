// Line ends, and the words that stand in their place.

ghost use Rattle.std.specs.Prelude.{◌≡◌, ◌<◌, ◌≤◌, ℕ, List, true, false, length, IfOk, MatchResult};
ghost use Rattle.rb_grammar.specs.Look as look;
ghost use Rattle.rb_grammar.specs.Phrase as p;
ghost use Rattle.rb_grammar.specs.Tree as tree;
ghost use Rattle.rb_grammar.specs.Rule.{next_meets};
ghost use Rattle.rb_cursor.specs.State.{Came, Took, Missed, answer_at};
ghost use Rattle.rb_steps.specs.Skips.{Skipped, IsThen};

use rb_cursor::{Class, Cursor, ParseFault};

/// Takes the line ends that follow, and tells whether there were any.
pub fn skip_lines(cursor: &mut Cursor<'_>) -> bool
    ensures skipped { Skipped result cursor.old cursor.new }
    ensures shorter { length cursor.new.rest ≤ length cursor.old.rest }
    ensures less { result ≡ true → length cursor.new.rest < length cursor.old.rest }
{
    let mut any = false;
    'lines: while let Some(_) = cursor.accept(Class::Line) {
        any = true;
    }
    any
}

/// Takes what stands between a condition and its body.
pub fn take_then(cursor: &mut Cursor<'_>) -> Result<(), ParseFault>
    ensures came { (levels : ℕ) → Came IsThen cursor.new (answer_at levels p.then cursor.old) result }
{
    if let Some(_) = cursor.accept(Class::ThenWord) {
        return Ok(());
    }
    cursor.expect(Class::Line)?;
    cursor.accept(Class::ThenWord);
    Ok(())
}
