// The token at the front of a text.

ghost use Rattle.std.specs.Prelude.{◌≡◌, ◌<◌, ◌≤◌, length, take, IfSome};
ghost use Rattle.std.specs.List.{prefix_len};
ghost use Rattle.arrayvec.specs.ArrayVec.{array_vec_len};
ghost use Rattle.iter_syntax.specs.Bytes.{in_word, in_run};
ghost use Rattle.iter_syntax.specs.Steps.Reading.{front_token, front_word, front_number, front_symbol, word_kind, next_value, read_numeral, read_number};

use crate::spelling::{keyword_of, symbol_of};
use crate::token::TokenKind;
use arrayvec::ArrayVec;

// A token and the number of its bytes.
#[derive(Drop)]
pub(super) struct Front {
    pub(super) kind: TokenKind,
    pub(super) len: usize,
}

// The token at the front, if one begins there.
pub(super) fn front_token(text: &[u8]) -> Option<Front>
    requires { 0 < length text.now }
    ensures front { result ≡ front_token text.now }
    ensures inside { IfSome result (λ front. (0 < front.len) × (front.len ≤ length text.now)) }
{
    let first = text[0];
    if first.is_ascii_lowercase() {
        front_word(text)
    } else if first.is_ascii_digit() {
        front_number(text)
    } else {
        front_symbol(text)
    }
}

// Small letters, digits and `_` go on with a word.
fn in_word(byte: u8) -> bool
    ensures { result ≡ in_word byte }
{
    byte.is_ascii_lowercase() || byte.is_ascii_digit() || byte == b'_'
}

// Letters, digits and `_` do not stand right after a number.
fn in_run(byte: u8) -> bool
    ensures { result ≡ in_run byte }
{
    byte.is_ascii_alphanumeric() || byte == b'_'
}

fn word_len(text: &[u8]) -> usize
    ensures { result ≡ prefix_len in_word text.now }
{
    for (at, byte) in text.iter().enumerate() {
        if !in_word(*byte) {
            return at;
        }
    }
    text.len()
}

fn run_len(text: &[u8]) -> usize
    ensures { result ≡ prefix_len in_run text.now }
{
    for (at, byte) in text.iter().enumerate() {
        if !in_run(*byte) {
            return at;
        }
    }
    text.len()
}

fn front_word(text: &[u8]) -> Option<Front>
    ensures { result ≡ front_word text.now }
{
    let len = word_len(text);
    if len > 32 {
        return None;
    }
    Some(Front {
        kind: word_kind(&text[..len]),
        len,
    })
}

// What a word of at most 32 bytes is.
fn word_kind(word: &[u8]) -> TokenKind
    requires { length word.now ≤ 32 }
    ensures { result ≡ word_kind word.now }
{
    match keyword_of(word) {
        Some(keyword) => TokenKind::Keyword(keyword),
        None => TokenKind::Name(name_of(word)),
    }
}

fn name_of(word: &[u8]) -> ArrayVec<u8, 32>
    requires { length word.now ≤ 32 }
    ensures { result.items ≡ word.now }
{
    let mut name = ArrayVec::new();
    for byte in word {
        name.push(*byte);
    }
    name
}

// A number is all the letters, digits and `_` that stand here, or none.
fn front_number(text: &[u8]) -> Option<Front>
    ensures { result ≡ front_number text.now }
{
    let len = run_len(text);
    match number_of(&text[..len]) {
        Some(value) => Some(Front {
            kind: TokenKind::Number(value),
            len,
        }),
        None => None,
    }
}

// The number that decimal digits, or `0x` and hexadecimal digits, write.
fn number_of(text: &[u8]) -> Option<u64>
    ensures { result ≡ read_number text.now }
{
    if text.starts_with(b"0x") {
        numeral(16, &text[2..])
    } else {
        numeral(10, text)
    }
}

// The number below 2^64 that one or more digits write.
fn numeral(radix: u32, digits: &[u8]) -> Option<u64>
    requires lower { 2 ≤ radix }
    requires upper { radix ≤ 16 }
    ensures { result ≡ read_numeral radix digits.now }
{
    if digits.is_empty() {
        return None;
    }
    let mut value: u64 = 0;
    for digit in digits {
        value = match next_value(radix, value, *digit) {
            Some(next) => next,
            None => return None,
        };
    }
    Some(value)
}

// The value with one more digit, below 2^64.
fn next_value(radix: u32, value: u64, digit: u8) -> Option<u64>
    requires lower { 2 ≤ radix }
    requires upper { radix ≤ 16 }
    ensures { result ≡ next_value radix value digit }
{
    let digit = char::from(digit).to_digit(radix)?;
    value
        .checked_mul(u64::from(radix))?
        .checked_add(u64::from(digit))
}

// The symbol of two bytes, or else that of one.
fn front_symbol(text: &[u8]) -> Option<Front>
    requires { 0 < length text.now }
    ensures { result ≡ front_symbol text.now }
{
    let two = if text.len() < 2 { text } else { &text[..2] };
    let symbol = match symbol_of(two) {
        Some(symbol) => symbol,
        None => symbol_of(&text[..1])?,
    };
    Some(Front {
        kind: TokenKind::Symbol(symbol),
        len: symbol.text().len(),
    })
}
