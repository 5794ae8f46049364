// Operators between two operands, and those of assignments.

ghost use Rattle.std.specs.Prelude.{◌≡◌, ◌<◌, false, true, MatchOption, nat_lt};
ghost use Rattle.rb_grammar.specs.Look as look;
ghost use Rattle.rb_grammar.specs.Phrase as p;
ghost use Rattle.rb_grammar.specs.Grammar as grammar;
ghost use Rattle.rb_grammar.specs.Grammar.{operators, tighter};
ghost use Rattle.rb_grammar.specs.Rule.{next_meets};
ghost use Rattle.rb_cursor.specs.Class.{class_by};
ghost use Rattle.rb_cursor.specs.State.{Took};
ghost use Rattle.rb_steps.specs.Tier.{tier_by, rank_of, is_unary, joins_once, tier_of, rank, is_within};

use rb_cursor::{Class, Cursor, Word};
use rb_lexer::Token;
use rb_tree::{AssignOp, Span};

const LESS: &[u8] = b"<";

const LESS_EQUAL: &[u8] = b"<=";

const GREATER: &[u8] = b">";

const GREATER_EQUAL: &[u8] = b">=";

const SHIFT_LEFT: &[u8] = b"<<";

const PLUS: &[u8] = b"+";

const MINUS: &[u8] = b"-";

const TIMES: &[u8] = b"*";

const OVER: &[u8] = b"/";

const MODULO: &[u8] = b"%";

const EQUAL: &[u8] = b"==";

/// The operators between two operands by how tightly they bind, the loosest first. The last has none.
#[derive(Clone, Copy)]
pub enum Tier {
    Or,
    And,
    Equal,
    Less,
    Shift,
    Sum,
    Product,
    Unary,
}

/// Whether the next token is an operator of a tier.
fn is_operator(cursor: &Cursor<'_>, tier: Tier) -> bool
    ensures { result ≡ next_meets (look.one_of (operators (tier_by tier))) cursor.now.rest }
{
    match tier {
        Tier::Or => cursor.is(Class::OrOr),
        Tier::And => cursor.is(Class::AndAnd),
        Tier::Equal => cursor.is(Class::Equal) || cursor.is(Class::NotEqual),
        Tier::Less => {
            cursor.is(Class::Less)
                || cursor.is(Class::LessEqual)
                || cursor.is(Class::Greater)
                || cursor.is(Class::GreaterEqual)
        }
        Tier::Shift => cursor.is(Class::ShiftLeft),
        Tier::Sum => cursor.is(Class::Plus) || cursor.is(Class::Minus),
        Tier::Product => {
            cursor.is(Class::Times) || cursor.is(Class::Over) || cursor.is(Class::Modulo)
        }
        Tier::Unary => false,
    }
}

/// The tier of the operators of a class. What is no operator has the tightest.
fn tier_of(class: Class) -> Tier
    ensures { tier_by result ≡ tier_of (class_by class) }
{
    match class {
        Class::OrOr => Tier::Or,
        Class::AndAnd => Tier::And,
        Class::Equal => Tier::Equal,
        Class::NotEqual => Tier::Equal,
        Class::Less => Tier::Less,
        Class::LessEqual => Tier::Less,
        Class::Greater => Tier::Less,
        Class::GreaterEqual => Tier::Less,
        Class::ShiftLeft => Tier::Shift,
        Class::Plus => Tier::Sum,
        Class::Minus => Tier::Sum,
        Class::Times => Tier::Product,
        Class::Over => Tier::Product,
        Class::Modulo => Tier::Product,
        _ => Tier::Unary,
    }
}

/// Whether the next token is an operator of a tier, or of a tighter one.
#[tactic(auto, using(crate::proofs::Within::within_next))]
pub fn operator_follows(cursor: &Cursor<'_>, tier: Tier) -> bool
    ensures { result ≡ next_meets (is_within (tier_by tier)) cursor.now.rest }
{
    let rank = tier_of(cursor.class()).rank();
    0 < rank && rank <= tier.rank()
}

/// Takes the next token where it is an operator of a tier.
pub fn accept_operator<'t>(cursor: &mut Cursor<'t>, tier: Tier) -> Option<&'t Token>
    ensures taken { MatchOption result ((next_meets (look.one_of (operators (tier_by tier))) cursor.old.rest ≡ false) × (cursor.new ≡ cursor.old)) (λ t. Took (look.one_of (operators (tier_by tier))) cursor.old cursor.new t.now) }
{
    if !is_operator(cursor, tier) {
        return None;
    }
    cursor.take().ok()
}

impl Tier {
    /// The tier of what stands on both sides of an operator.
    pub fn tighter(self) -> Option<Tier>
        ensures { MatchOption result (tier_by self ≡ p.unary_tier) (λ t. (tier_by t ≡ tighter (tier_by self)) × (is_unary (tier_by self) ≡ false) × (nat_lt (rank_of t) (rank_of self) ≡ true)) }
    {
        match self {
            Tier::Or => Some(Tier::And),
            Tier::And => Some(Tier::Equal),
            Tier::Equal => Some(Tier::Less),
            Tier::Less => Some(Tier::Shift),
            Tier::Shift => Some(Tier::Sum),
            Tier::Sum => Some(Tier::Product),
            Tier::Product => Some(Tier::Unary),
            Tier::Unary => None,
        }
    }

    /// How many tiers are tighter.
    fn rank(self) -> u8
        ensures { result ≡ rank (tier_by self) }
    {
        match self {
            Tier::Or => 7,
            Tier::And => 6,
            Tier::Equal => 5,
            Tier::Less => 4,
            Tier::Shift => 3,
            Tier::Sum => 2,
            Tier::Product => 1,
            Tier::Unary => 0,
        }
    }

    /// Whether no second operator of the tier follows one.
    pub fn joins_once(self) -> bool
        ensures { result ≡ joins_once (tier_by self) }
    {
        matches!(self, Tier::Equal)
    }
}

/// The name of the method that an operator calls. `!=` calls `==`.
fn operator_name(class: Class) -> &'static [u8]
    ensures { result.now ≡ grammar.operator_name (class_by class) }
{
    match class {
        Class::Less => LESS,
        Class::LessEqual => LESS_EQUAL,
        Class::Greater => GREATER,
        Class::GreaterEqual => GREATER_EQUAL,
        Class::ShiftLeft => SHIFT_LEFT,
        Class::Plus => PLUS,
        Class::Minus => MINUS,
        Class::Times => TIMES,
        Class::Over => OVER,
        Class::Modulo => MODULO,
        _ => EQUAL,
    }
}

/// The name of the method that an operator calls, at the operator's place.
pub fn operator_word<'t>(class: Class, at: Span) -> Word<'t>
    ensures text { result.text.now ≡ grammar.operator_name (class_by class) }
    ensures at { result.at ≡ at }
{
    Word {
        text: operator_name(class),
        at,
    }
}

/// The operator of an assignment such as `+=`.
pub fn operator_of(class: Class) -> AssignOp
    ensures { result ≡ grammar.operator_of (class_by class) }
{
    match class {
        Class::PlusAssign => AssignOp::Plus,
        Class::MinusAssign => AssignOp::Minus,
        Class::TimesAssign => AssignOp::Times,
        Class::OverAssign => AssignOp::Over,
        Class::ModuloAssign => AssignOp::Modulo,
        Class::OrAssign => AssignOp::OrElse,
        _ => AssignOp::AndThen,
    }
}
