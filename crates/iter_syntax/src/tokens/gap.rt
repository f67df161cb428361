// What stands between tokens.

ghost use Rattle.std.specs.Prelude.{◌≡◌, ◌≤◌, length, false};
ghost use Rattle.iter_syntax.specs.Steps.Reading.{gap_len};
ghost use Rattle.iter_syntax.specs.Bytes.{is_separator};

// Space, tab, CR or LF.
fn is_separator(byte: u8) -> bool
    ensures { result ≡ is_separator byte }
{
    byte == b' ' || byte == b'\t' || byte == b'\r' || byte == b'\n'
}

// How many bytes of separators and comments stand at the front.
pub(super) fn gap_len(text: &[u8]) -> usize
    ensures len { result ≡ gap_len false text.now }
    ensures inside { result ≤ length text.now }
{
    let mut in_comment = false;
    for (at, byte) in text.iter().enumerate() {
        if in_comment {
            in_comment = *byte != b'\n';
        } else if *byte == b'#' {
            in_comment = true;
        } else if !is_separator(*byte) {
            return at;
        }
    }
    text.len()
}
