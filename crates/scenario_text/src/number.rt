// Numbers in texts: the arguments of a request.

ghost use Rattle.std.specs.Prelude.{◌≡◌, ◌≤◌, ◌<◌, ◌^◌, IfSome, option_map};
ghost use Rattle.hex.specs.Hex.{hex_digit_value};
ghost use Rattle.toml.specs.View.{view};
ghost use Rattle.scenario_text.specs.Numbers.{after, argument_of, digits, number_from};

use toml::Value;

const PAST_U64: u128 = 0x1_0000_0000_0000_0000;

fn digit(c: u8) -> Option<u128>
    ensures value { result ≡ hex_digit_value c }
    ensures low { IfSome result (λ d. d < 16) }
{
    match c {
        b'A'..=b'F' => Some(c as u128 - 55),
        b'a'..=b'f' => Some(c as u128 - 87),
        b'0'..=b'9' => Some(c as u128 - 48),
        _ => None,
    }
}

/// The number of some digits of a base, where it is below a limit.
pub(crate) fn number_of(base: u128, limit: u128, text: &[u8]) -> Option<u64>
    requires base { base ≤ 16 }
    requires some { 0 < limit }
    requires limit { limit ≤ 2 ^ 64 }
    ensures value { result ≡ number_from base limit 0 text.now }
    ensures low { IfSome result (λ n. n < limit) }
{
    let mut n: u128 = 0;
    let mut at = 0;
    'digits: while at < text.len() {
        let d = match digit(text[at]) {
            Some(d) => d,
            None => return None,
        };
        if base <= d {
            return None;
        }
        n = n * base + d;
        if limit <= n {
            return None;
        }
        at += 1;
    }
    Some(n as u64)
}

fn digits(base: u128, text: &[u8]) -> Option<u64>
    requires { base ≤ 16 }
    ensures { result ≡ digits base text.now }
{
    if text.len() == 0 {
        return None;
    }
    number_of(base, PAST_U64, text)
}

/// What stands after a word at the front of a text.
pub(crate) fn after<'a>(word: &[u8], text: &'a [u8]) -> Option<&'a [u8]>
    ensures { option_map (λ s. s.now) result ≡ after word.now text.now }
{
    if word.len() <= text.len() && &text[..word.len()] == word {
        Some(&text[word.len()..])
    } else {
        None
    }
}

/// The argument that a value is.
pub(crate) fn argument_of(value: &Value) -> Option<u64>
    ensures { result ≡ argument_of (view value.now) }
{
    if let Some(n) = value.as_integer() {
        return if n < 0 { None } else { Some(n as u64) };
    }
    let text = value.as_str()?.as_bytes();
    match after(b"0x", text) {
        Some(hex) => digits(16, hex),
        None => digits(10, text),
    }
}
