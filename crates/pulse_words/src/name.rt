// The form of a name.

ghost use Rattle.std.specs.Prelude.{◌≡◌};
ghost use Rattle.std.specs.List.{list_all};
ghost use Rattle.pulse_words.specs.Words.{is_name, in_word};

/// Whether a word has the form of a name.
pub(crate) fn is_name(word: &[u8]) -> bool
    ensures { result ≡ is_name word.now }
{
    match word {
        [] => false,
        [first, rest @ ..] => first.is_ascii_lowercase() && rest.len() <= 31 && all_go_on(rest),
    }
}

// Whether a name goes on with each of these bytes.
fn all_go_on(bytes: &[u8]) -> bool
    ensures { result ≡ list_all in_word bytes.now }
{
    match bytes {
        [] => true,
        [first, rest @ ..] => goes_on(*first) && all_go_on(rest),
    }
}

// Whether a name goes on with this byte.
fn goes_on(b: u8) -> bool
    ensures { result ≡ in_word b }
{
    b.is_ascii_lowercase() || b.is_ascii_digit() || b == b'_'
}
