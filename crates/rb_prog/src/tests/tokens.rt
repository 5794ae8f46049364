// Sources and their tokens, by hand from the rules of the language.

use rb_lexer::{LexFault, Token, TokenKind, lex};
use std::alloc::{AllocError, Global};
use std::test::Fail;

/// A token as `WHAT FROM-TO`, with `_` before it where it is spaced.
fn described(alloc: Global, token: &Token) -> Result<String, AllocError> {
    let what = match &token.kind {
        TokenKind::Newline => format!(in alloc; "newline")?,
        TokenKind::Int(value) => format!(in alloc; "{value}")?,
        TokenKind::Ident(text) => written(alloc, "", text.as_slice())?,
        TokenKind::Const(text) => written(alloc, "constant ", text.as_slice())?,
        TokenKind::Field(text) => written(alloc, "field ", text.as_slice())?,
        TokenKind::Global(text) => written(alloc, "global ", text.as_slice())?,
        TokenKind::Symbol(text) => written(alloc, "symbol ", text.as_slice())?,
        TokenKind::Label(text) => written(alloc, "label ", text.as_slice())?,
        TokenKind::Keyword(keyword) => format!(in alloc; "{keyword:?}")?,
        TokenKind::TextOpen => format!(in alloc; "open")?,
        TokenKind::TextPiece(text) => written(alloc, "text ", text.as_slice())?,
        TokenKind::CodeOpen => format!(in alloc; "code")?,
        TokenKind::CodeClose => format!(in alloc; "code end")?,
        TokenKind::TextClose => format!(in alloc; "close")?,
        TokenKind::Mark(mark) => format!(in alloc; "{mark:?}")?,
        TokenKind::End => format!(in alloc; "end")?,
    };
    let space = if token.spaced { "_" } else { "" };
    format!(in alloc; "{space}{what} {}-{}", token.at.from, token.at.to)
}

/// A word, and then bytes that are ASCII.
fn written(alloc: Global, word: &str, bytes: &[u8]) -> Result<String, AllocError> {
    let mut all = String::new(alloc);
    all.push_str(word)?;
    for byte in bytes {
        all.push(char::from(*byte))?;
    }
    Ok(all)
}

/// The tokens in their order, with a comma and a space between two.
fn described_all(alloc: Global, tokens: &[Token]) -> Result<String, AllocError> {
    let mut all = String::new(alloc);
    for token in tokens {
        if !all.is_empty() {
            all.push_str(", ")?;
        }
        all.push_str(described(alloc, token)?.as_str())?;
    }
    Ok(all)
}

/// A source, and its tokens.
const TOKENS: [(&str, &str); 47] = [
    ("", "end 0-0"),
    (" \t\r", "_end 3-3"),
    ("x = 12", "x 0-1, _Assign 2-3, _12 4-6, end 6-6"),
    ("1_000", "1000 0-5, end 5-5"),
    ("def x? end", "Def 0-3, _x? 4-6, _End 7-10, end 10-10"),
    (
        "a: :b :C @d $e Foo",
        "label a 0-2, _symbol b 3-5, _symbol C 6-8, _field @d 9-11, _global $e 12-14, _constant Foo 15-18, end 18-18",
    ),
    ("a<<b", "a 0-1, ShiftLeft 1-3, b 3-4, end 4-4"),
    (
        "{}}",
        "OpenBrace 0-1, CloseBrace 1-2, CloseBrace 2-3, end 3-3",
    ),
    ("\"\"", "open 0-1, close 1-2, end 2-2"),
    ("\"ab\"", "open 0-1, text ab 1-3, close 3-4, end 4-4"),
    (
        "\"a\" b",
        "open 0-1, text a 1-2, close 2-3, _b 4-5, end 5-5",
    ),
    (" 'a b' ", "_open 1-2, text a b 2-5, close 5-6, _end 7-7"),
    ("\"#a'\"", "open 0-1, text #a' 1-4, close 4-5, end 5-5"),
    (
        "\"a\\n\\t\\\"\\\\\\#b\"",
        "open 0-1, text a\n\t\"\\#b 1-13, close 13-14, end 14-14",
    ),
    (
        "'a\\'b\\\\c\\n'",
        "open 0-1, text a'b\\c\\n 1-10, close 10-11, end 11-11",
    ),
    ("'#{a}'", "open 0-1, text #{a} 1-5, close 5-6, end 6-6"),
    ("\"a\nb\"", "open 0-1, text a\nb 1-4, close 4-5, end 5-5"),
    (
        "\"a#{b}c\"",
        "open 0-1, text a 1-2, code 2-4, b 4-5, code end 5-6, text c 6-7, close 7-8, end 8-8",
    ),
    (
        "\"#{ \"x#{1}\" }\"",
        "open 0-1, code 1-3, _open 4-5, text x 5-6, code 6-8, 1 8-9, code end 9-10, close 10-11, _code end 12-13, close 13-14, end 14-14",
    ),
    (
        "\"#{ {} }\"",
        "open 0-1, code 1-3, _OpenBrace 4-5, CloseBrace 5-6, _code end 7-8, close 8-9, end 9-9",
    ),
    (
        "\"#{'}'}\"",
        "open 0-1, code 1-3, open 3-4, text } 4-5, close 5-6, code end 6-7, close 7-8, end 8-8",
    ),
    (
        "\"#{}\"}",
        "open 0-1, code 1-3, code end 3-4, close 4-5, CloseBrace 5-6, end 6-6",
    ),
    ("# only", "_end 6-6"),
    ("a # b\nc", "a 0-1, _newline 5-6, c 6-7, end 7-7"),
    ("#a\n#b\nx", "x 6-7, end 7-7"),
    ("a#\"", "a 0-1, _end 3-3"),
    ("a \r\nb", "a 0-1, _newline 3-4, b 4-5, end 5-5"),
    ("\n", "end 1-1"),
    ("a\n", "a 0-1, newline 1-2, end 2-2"),
    ("a;b", "a 0-1, newline 1-2, b 2-3, end 3-3"),
    (";;a;", "a 2-3, newline 3-4, end 4-4"),
    ("a\n;\nb", "a 0-1, newline 1-2, b 4-5, end 5-5"),
    ("a +\nb", "a 0-1, _Plus 2-3, b 4-5, end 5-5"),
    (
        "f(\n1\n)\n",
        "f 0-1, OpenParen 1-2, 1 3-4, CloseParen 5-6, newline 6-7, end 7-7",
    ),
    (
        "[1,\n\n2\n\n]",
        "OpenBracket 0-1, 1 1-2, Comma 2-3, 2 5-6, CloseBracket 8-9, end 9-9",
    ),
    (
        "\"#{a\n}\"",
        "open 0-1, code 1-3, a 3-4, code end 5-6, close 6-7, end 7-7",
    ),
    (
        "\"#{\n1\n2\n}\"",
        "open 0-1, code 1-3, 1 4-5, newline 5-6, 2 6-7, code end 8-9, close 9-10, end 10-10",
    ),
    (
        "{a:\n1}",
        "OpenBrace 0-1, label a 1-3, 1 4-5, CloseBrace 5-6, end 6-6",
    ),
    (
        "f(1, {b:\n2})",
        "f 0-1, OpenParen 1-2, 1 2-3, Comma 3-4, _OpenBrace 5-6, label b 6-8, 2 9-10, CloseBrace 10-11, CloseParen 11-12, end 12-12",
    ),
    (
        "class def end if elsif else unless while until then do return break next self true false nil",
        "Class 0-5, _Def 6-9, _End 10-13, _If 14-16, _Elsif 17-22, _Else 23-27, _Unless 28-34, _While 35-40, _Until 41-46, _Then 47-51, _Do 52-54, _Return 55-61, _Break 62-67, _Next 68-72, _SelfRef 73-77, _True 78-82, _False 83-88, _Nil 89-92, end 92-92",
    ),
    (
        "alias and begin case defined? ensure for in module not or redo rescue retry super undef when yield",
        "Alias 0-5, _And 6-9, _Begin 10-15, _Case 16-20, _Defined 21-29, _Ensure 30-36, _For 37-40, _In 41-43, _Module 44-50, _Not 51-54, _Or 55-57, _Redo 58-62, _Rescue 63-69, _Retry 70-75, _Super 76-81, _Undef 82-87, _When 88-92, _Yield 93-98, end 98-98",
    ),
    (
        ", ( [ { . = += -= *= /= %= ||= &&= ? : ! && || => == != < <= > >= << + - * / % | ) ] }",
        "Comma 0-1, _OpenParen 2-3, _OpenBracket 4-5, _OpenBrace 6-7, _Dot 8-9, _Assign 10-11, _PlusAssign 12-14, _MinusAssign 15-17, _TimesAssign 18-20, _OverAssign 21-23, _ModuloAssign 24-26, _OrAssign 27-30, _AndAssign 31-34, _Question 35-36, _Colon 37-38, _Not 39-40, _AndAnd 41-43, _OrOr 44-46, _Arrow 47-49, _Equal 50-52, _NotEqual 53-55, _Less 56-57, _LessEqual 58-60, _Greater 61-62, _GreaterEqual 63-65, _ShiftLeft 66-68, _Plus 69-70, _Minus 71-72, _Times 73-74, _Over 75-76, _Modulo 77-78, _Bar 79-80, _CloseParen 81-82, _CloseBracket 83-84, _CloseBrace 85-86, end 86-86",
    ),
    (
        "=== <=> <<= >> -> **",
        "Equal 0-2, Assign 2-3, _LessEqual 4-6, Greater 6-7, _ShiftLeft 8-10, Assign 10-11, _Greater 12-13, Greater 13-14, _Minus 15-16, Greater 16-17, _Times 18-19, Times 19-20, end 20-20",
    ),
    (
        "1_2_3 9_223_372_036_854_775_807 1..2 1.a 1? 0",
        "123 0-5, _9223372036854775807 6-31, _1 32-33, Dot 33-34, Dot 34-35, 2 35-36, _1 37-38, Dot 38-39, a 39-40, _1 41-42, Question 42-43, _0 44-45, end 45-45",
    ),
    (
        "_1B total_2+1 foo?= foo!=b foo!! foo?b classes class? defined defined!",
        "_1B 0-3, _total_2 4-11, Plus 11-12, 1 12-13, _foo 14-17, Question 17-18, Assign 18-19, _foo 20-23, NotEqual 23-25, b 25-26, _foo! 27-31, Not 31-32, _foo? 33-37, b 37-38, _classes 39-46, _class? 47-53, _defined 54-61, _defined! 62-70, end 70-70",
    ),
    (
        "key:a key?: key!: if: key::N if:: key :a N2_b? N:",
        "label key 0-4, a 4-5, _label key? 6-11, _label key! 12-17, _label if 18-21, _key 22-25, Colon 25-26, symbol N 26-28, _If 29-31, Colon 31-32, Colon 32-33, _key 34-37, _symbol a 38-40, _constant N2_b 41-45, Question 45-46, _constant N 47-48, Colon 48-49, end 49-49",
    ),
    (
        "@_a1B? $stdout.puts :empty? :a?= :N? :if :a: :1 :\"a\"",
        "field @_a1B 0-5, Question 5-6, _global $stdout 7-14, Dot 14-15, puts 15-19, _symbol empty? 20-27, _symbol a 28-30, Question 30-31, Assign 31-32, _symbol N 33-35, Question 35-36, _symbol if 37-40, _symbol a 41-43, Colon 43-44, _Colon 45-46, 1 46-47, _Colon 48-49, open 49-50, text a 50-51, close 51-52, end 52-52",
    ),
];

/// The number of the first source that has other tokens.
fn first_wrong(alloc: Global) -> Result<Option<usize>, LexFault> {
    for (at, (source, tokens)) in TOKENS.iter().enumerate() {
        let found = lex(alloc, source.as_bytes())?;
        if described_all(alloc, found.as_slice())?.as_str() != *tokens {
            return Ok(Some(at));
        }
    }
    Ok(None)
}

#[test]
fn sources_have_these_tokens(rt: HostRuntime) -> Result<(), Fail> {
    let wrong = first_wrong(rt.alloc())?;
    assert_eq!(rt; wrong, None);
    Ok(())
}
