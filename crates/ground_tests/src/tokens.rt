//! Texts and the tokens that they are cut into, with the places counted by hand.

use sql_tokens::{Token, tokens};
use std::alloc::{AllocError, Global};
use std::test::Fail;

/// A text, and its tokens with their places.
static TOKENS: &[(&str, &str)] = &[
    ("''", "0 ''"),
    ("''''", "0 '''"),
    ("'it''s'", "0 'it's'"),
    ("'a' 'b", "0 'a' 4 ?"),
    ("'''", "0 ?"),
    ("X'00ff'", "0 blob 2"),
    ("x''", "0 blob 0"),
    ("x'0", "0 ?"),
    ("x'0g'", "0 ?"),
    ("x '00'", "0 x 2 '00'"),
    (" \tSeLecT", "2 Select"),
    ("_Select1", "0 _select1"),
    ("tooold row", "0 TooOld 7 row"),
    ("xx'00'", "0 xx 2 '00'"),
    ("1and", "0 1 1 And"),
    ("007", "0 7"),
    ("9223372036854775808", "0 9223372036854775808"),
    ("1 9223372036854775809", "0 1 2 ?"),
    ("99999999999999999999999999999999999999999", "0 ?"),
    ("a\nb", "0 a 1 ?"),
    (" ", ""),
    (
        "<=> <>=!=>=<",
        "0 LessEqual 2 Greater 4 NotEqual 6 Equal 7 NotEqual 9 GreaterEqual 11 Less",
    ),
    (
        "(),.;*+-!",
        "0 Open 1 Close 2 Comma 3 Dot 4 Semicolon 5 Star 6 Plus 7 Minus 8 ?",
    ),
];

/// A token as a text.
fn shown(alloc: Global, token: &Token) -> Result<String, AllocError> {
    match token {
        Token::Keyword(keyword) => format!(in alloc; "{keyword:?}"),
        Token::Name(name) => String::from_utf8_lossy(alloc, name.as_bytes()),
        Token::Number(number) => format!(in alloc; "{number}"),
        Token::Text(text) => {
            let text = String::from_utf8_lossy(alloc, text.as_bytes())?;
            format!(in alloc; "'{text}'")
        }
        Token::Blob(bytes) => {
            let count = bytes.as_bytes().len();
            format!(in alloc; "blob {count}")
        }
        Token::Sign(sign) => format!(in alloc; "{sign:?}"),
        Token::Unknown => format!(in alloc; "?"),
    }
}

/// The tokens of a text with their places.
fn read(alloc: Global, text: &str) -> Result<String, AllocError> {
    let mut out = String::new(alloc);
    if text.len() > 1000 {
        return Ok(out);
    }
    let spots = tokens(alloc, text)?;
    for (index, token) in spots.tokens().iter().enumerate() {
        let token = shown(alloc, token)?;
        let place = spots.place(index).unwrap_or(0);
        out.push_str(if out.is_empty() { "" } else { " " })?;
        out.push_str(format!(in alloc; "{place} {token}")?.as_str())?;
    }
    Ok(out)
}

#[test]
fn texts_are_cut(rt: HostRuntime) -> Result<(), Fail> {
    for (text, wanted) in TOKENS {
        assert_eq!(rt; read(rt.alloc(), *text)?.as_str(), *wanted);
    }
    Ok(())
}
