//! The reader of tokens.

ghost use Rattle.std.specs.Prelude.{◌≡◌, ◌≢◌, ◌-◌, ◌<◌, ◌≤◌, ℕ, ◌∷◌, [], ◌++◌, length, true, false, Ok, Err, All, IfOk, MatchResult, string_bytes};
ghost use Rattle.lf_grammar.specs.Bytes.{is_blank, is_digit, is_letter};
ghost use Rattle.lf_grammar.specs.Signs.{single};
ghost use Rattle.lf_grammar.specs.Tokens.{Nothing, pieces, marked, tokens_of, open_after, in_room, IsNext, IsFaulty, value_behind};

use crate::bytes::{Class, is_blank, is_digit, is_letter};
use crate::{MOST_OPEN, MOST_TOKENS, Sign, Token, TokenError};
use lf_rules::Name;
use std::alloc::{AllocError, Global};

/// The tokens of a text, or its first fault from the left.
pub fn read_tokens(alloc: Global, text: &[u8]) -> Result<Vec<Token>, TokenError>
    ensures { MatchResult result (λ tokens. tokens_of text.now ≡ Ok tokens.items) (λ e. e ≢ TokenError.Memory → tokens_of text.now ≡ Err e) }
{
    let mut tokens = Vec::new(alloc);
    let mut depth = 0;
    let mut rest = text;
    while let Some((first, behind)) = rest.split_first() {
        if is_blank(*first) {
            rest = behind;
        } else {
            let (token, after) = next_token(alloc, *first, behind)?;
            depth = open_after(depth, &token)?;
            put(&mut tokens, token)?;
            rest = after;
        }
    }
    Ok(tokens)
}

/// Puts a token behind the others, where there may be one more.
fn put(tokens: &mut Vec<Token>, token: Token) -> Result<(), TokenError>
    ensures { MatchResult result
        (λ _. (in_room (length tokens.old.items) token ≡ Ok token) × (tokens.new.items ≡ tokens.old.items ++ token ∷ []))
        (λ e. e ≢ TokenError.Memory → in_room (length tokens.old.items) token ≡ Err e) }
{
    if MOST_TOKENS <= tokens.len() {
        return Err(TokenError::TooMany);
    }
    match tokens.push(token) {
        Ok(()) => Ok(()),
        Err(_) => Err(TokenError::Memory),
    }
}

/// The token that begins with a byte, which is no blank, and the bytes behind the token.
fn next_token(alloc: Global, first: u8, behind: &[u8]) -> Result<(Token, &[u8]), TokenError>
    requires { is_blank first ≡ false }
    ensures next { MatchResult result (λ r. IsNext (first ∷ behind.now) r.0 r.1.now)
        (λ e. e ≢ TokenError.Memory → IsFaulty (first ∷ behind.now) e) }
    ensures shorter { IfOk result (λ r. length r.1.now ≤ length behind.now) }
{
    if is_digit(first) {
        next_number(first, behind)
    } else if is_letter(first) {
        next_word(alloc, first, behind)
    } else {
        next_sign(first, behind)
    }
}

/// The number that begins with a digit, and the bytes behind it.
fn next_number(first: u8, behind: &[u8]) -> Result<(Token, &[u8]), TokenError>
    requires blank { is_blank first ≡ false }
    requires digit { is_digit first ≡ true }
    ensures next { MatchResult result (λ r. IsNext (first ∷ behind.now) r.0 r.1.now) (λ e. IsFaulty (first ∷ behind.now) e) }
    ensures shorter { IfOk result (λ r. length r.1.now ≤ length behind.now) }
{
    let (more, after) = behind.split_at(Class::Digit.leading(behind));
    match number(first, more) {
        Ok(number) => Ok((Token::Number(number), after)),
        Err(e) => Err(e),
    }
}

/// The word that begins with a letter, and the bytes behind it.
fn next_word(alloc: Global, first: u8, behind: &[u8]) -> Result<(Token, &[u8]), TokenError>
    requires blank { is_blank first ≡ false }
    requires digit { is_digit first ≡ false }
    requires letter { is_letter first ≡ true }
    ensures next { MatchResult result (λ r. IsNext (first ∷ behind.now) r.0 r.1.now) (λ e. e ≡ TokenError.Memory) }
    ensures shorter { IfOk result (λ r. length r.1.now ≤ length behind.now) }
{
    let (more, after) = behind.split_at(Class::OfWord.leading(behind));
    let word = word(alloc, first, more)?;
    Ok((Token::Word(word), after))
}

/// The sign that begins with a byte, and the bytes behind it.
fn next_sign(first: u8, behind: &[u8]) -> Result<(Token, &[u8]), TokenError>
    requires blank { is_blank first ≡ false }
    requires digit { is_digit first ≡ false }
    requires letter { is_letter first ≡ false }
    ensures next { MatchResult result (λ r. IsNext (first ∷ behind.now) r.0 r.1.now) (λ e. IsFaulty (first ∷ behind.now) e) }
    ensures shorter { IfOk result (λ r. length r.1.now ≤ length behind.now) }
{
    match behind.split_first() {
        Some((second, after)) => match Sign::pair(first, *second) {
            Some(sign) => Ok((Token::Sign(sign), after)),
            None => sign_alone(first, behind),
        },
        None => sign_alone(first, behind),
    }
}

/// The sign that a byte is by itself, and the bytes behind it.
fn sign_alone(first: u8, behind: &[u8]) -> Result<(Token, &[u8]), TokenError>
    requires { pieces Nothing (first ∷ behind.now) ≡ marked (single first) ∷ pieces Nothing behind.now }
    ensures next { MatchResult result (λ r. IsNext (first ∷ behind.now) r.0 r.1.now) (λ e. IsFaulty (first ∷ behind.now) e) }
    ensures same { IfOk result (λ r. r.1.now ≡ behind.now) }
{
    match Sign::single(first) {
        Some(sign) => Ok((Token::Sign(sign), behind)),
        None => Err(TokenError::Stray),
    }
}

/// The number of these digits.
fn number(first: u8, more: &[u8]) -> Result<u8, TokenError>
    ensures { MatchResult result (λ n. (n ≤ 255) × (n ≡ value_behind (first - 48) more.now))
        (λ e. (e ≡ TokenError.TooLarge) × (256 ≤ value_behind (first - 48) more.now)) }
{
    let mut value = u32::from(first.saturating_sub(b'0'));
    for digit in more {
        value = 10 * value + u32::from(digit.saturating_sub(b'0'));
        if 255 < value {
            return Err(TokenError::TooLarge);
        }
    }
    Ok(value as u8)
}

/// The word of these letters.
fn word(alloc: Global, first: u8, more: &[u8]) -> Result<Name, TokenError>
    requires first { first < 128 }
    requires more { All (λ b. b < 128) more.now }
    ensures { MatchResult result (λ name. name ≡ first ∷ more.now) (λ e. e ≡ TokenError.Memory) }
{
    let text = letters(alloc, first, more)?;
    Ok(Name::new(text))
}

/// The text of these letters.
fn letters(alloc: Global, first: u8, more: &[u8]) -> Result<String, AllocError>
    requires first { first < 128 }
    requires more { All (λ b. b < 128) more.now }
    ensures { IfOk result (λ text. string_bytes text ≡ first ∷ more.now) }
{
    let mut text = String::new(alloc);
    text.push(char::from(first))?;
    for letter in more {
        text.push(char::from(*letter))?;
    }
    Ok(text)
}

/// How many brackets are open after a token.
fn open_after(depth: u32, token: &Token) -> Result<u32, TokenError>
    requires { depth ≤ 12 }
    ensures value { result ≡ open_after depth token.now }
    ensures shallow { IfOk result (λ after. after ≤ 12) }
{
    match token {
        Token::Sign(sign) if sign.opens() => {
            if depth < MOST_OPEN {
                Ok(depth + 1)
            } else {
                Err(TokenError::TooDeep)
            }
        }
        Token::Sign(sign) if sign.closes() => Ok(depth.saturating_sub(1)),
        _ => Ok(depth),
    }
}
