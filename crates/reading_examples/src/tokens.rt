//! The tokens of texts.

use lf_grammar::{Sign, Token, TokenError, read_tokens};
use std::alloc::{AllocError, Global};

/// Texts, each with its tokens or its fault.
const TEXTS: [(&str, &str); 18] = [
    ("", ""),
    ("\t a \r\n b ", "a b"),
    (
        "phase = voting and yes = participants",
        "phase = voting and yes = participants",
    ),
    ("t-since>=patience", "t - since >= patience"),
    ("a<b", "a < b"),
    ("a<==b", "a <= = b"),
    ("x!=y", "x != y"),
    ("{a, b..c,d..}", "{ a , b .. c , d .. }"),
    ("PROMISE(b: ballot)|", "PROMISE ( b : ballot ) |"),
    ("x1_2 3x", "x1_2 3 x"),
    ("007+255", "7 + 255"),
    ("256", "a number over 255"),
    ("99999999999999999999", "a number over 255"),
    ("a.b", STRAY),
    ("a...b", STRAY),
    ("a ! b", STRAY),
    ("\u{e9}", STRAY),
    ("256 #", "a number over 255"),
];

/// What is said of a character that is none of a text.
const STRAY: &str = "a character that begins no number, no word and no sign";

/// The tokens of a text, or the fault, written out with single blanks between.
fn told(alloc: Global, text: &str) -> Result<String, AllocError> {
    let tokens = match read_tokens(alloc, text.as_bytes()) {
        Ok(tokens) => tokens,
        Err(fault) => return format!(in alloc; "{fault}"),
    };
    let mut all = String::new(alloc);
    for token in tokens.as_slice() {
        if !all.is_empty() {
            all.push(' ')?;
        }
        push_token(alloc, token, &mut all)?;
    }
    Ok(all)
}

/// Appends a token.
fn push_token(alloc: Global, token: &Token, all: &mut String) -> Result<(), AllocError> {
    match token {
        Token::Number(number) => {
            let digits = format!(in alloc; "{number}")?;
            all.push_str(digits.as_str())
        }
        Token::Word(word) => all.push_str(word.as_str()),
        Token::Sign(sign) => all.push_str(sign_text(*sign)),
    }
}

/// A sign as it is written.
fn sign_text(sign: Sign) -> &'static str {
    match sign {
        Sign::To => "..",
        Sign::NotEqual => "!=",
        Sign::AtMost => "<=",
        Sign::AtLeast => ">=",
        Sign::Minus => "-",
        Sign::Plus => "+",
        Sign::Equal => "=",
        Sign::Less => "<",
        Sign::More => ">",
        Sign::OpenRound => "(",
        Sign::CloseRound => ")",
        Sign::OpenCurly => "{",
        Sign::CloseCurly => "}",
        Sign::OpenSquare => "[",
        Sign::CloseSquare => "]",
        Sign::Comma => ",",
        Sign::Colon => ":",
        Sign::Bar => "|",
    }
}

/// Whether a text is told so.
fn is_told(alloc: Global, text: &str, wanted: &str) -> bool {
    match told(alloc, text) {
        Ok(found) => found.as_str() == wanted,
        Err(_) => false,
    }
}

/// A text so many times.
fn repeated(alloc: Global, text: &str, times: u32) -> Result<String, AllocError> {
    let mut all = String::new(alloc);
    for _ in 0..times {
        all.push_str(text)?;
    }
    Ok(all)
}

/// The fault of a text so many times, and None where it has tokens.
fn fault_of(alloc: Global, text: &str, times: u32) -> Option<TokenError> {
    let all = repeated(alloc, text, times).ok()?;
    read_tokens(alloc, all.as_bytes()).err()
}

#[test]
fn texts_have_tokens_or_a_fault(rt: HostRuntime) {
    for (text, wanted) in TEXTS {
        assert!(&rt; is_told(rt.alloc(), text, wanted), "{text}");
    }
}

#[test]
fn limits_are_kept(rt: HostRuntime) {
    let alloc = rt.alloc();
    assert!(&rt; fault_of(alloc, "a ", 160).is_none());
    assert!(&rt; fault_of(alloc, "a ", 161) == Some(TokenError::TooMany));
    assert!(&rt; fault_of(alloc, "({", 6).is_none());
    assert!(&rt; fault_of(alloc, "({", 7) == Some(TokenError::TooDeep));
    assert!(&rt; fault_of(alloc, "(}", 80).is_none());
    assert!(&rt; fault_of(alloc, "(", 65_536) == Some(TokenError::TooDeep));
}
