// Tokens as text, each with what stands behind it.

ghost use Rattle.std.specs.Prelude.{◌≡◌, ◌++◌, [], ◌∷◌, OnOk};
ghost use Rattle.iter_syntax.specs.declared.token.TokenKind.TheVariants as K;
ghost use Rattle.iter_syntax.specs.Printed.{next_word};
ghost use Rattle.iter_syntax.specs.Steps.Printing.{add};
ghost use Rattle.iter_syntax.specs.Printed as P;

use crate::token::{Keyword, Symbol};
use crate::tree::Word;
use itoa::Buffer;
use pulse_base::{Bytes, Memory};

pub(super) fn put_keyword(text: &mut Bytes, keyword: Keyword) -> Result<(), Memory>
    ensures { OnOk result (text.new ≡ add (P.key keyword) text.old) }
{
    put(text, keyword.text(), b' ')
}

pub(super) fn put_symbol(text: &mut Bytes, symbol: Symbol) -> Result<(), Memory>
    ensures { OnOk result (text.new ≡ add (P.sym symbol) text.old) }
{
    put(text, symbol.text(), separator(symbol))
}

pub(super) fn put_name(text: &mut Bytes, name: &Word) -> Result<(), Memory>
    ensures { OnOk result (text.new ≡ add (P.word name.now) text.old) }
{
    put(text, name.text.as_slice(), b' ')
}

// The word `next`, which is no keyword.
pub(super) fn put_next(text: &mut Bytes) -> Result<(), Memory>
    ensures { OnOk result (text.new ≡ add next_word text.old) }
{
    put(text, b"next", b' ')
}

pub(super) fn put_number(text: &mut Bytes, number: u64) -> Result<(), Memory>
    ensures { OnOk result (text.new ≡ add (K.Number number) text.old) }
{
    put(text, Buffer::new().format(number).as_bytes(), b' ')
}

// A line ends behind `;`, `{` and `}`.
fn separator(symbol: Symbol) -> u8
    ensures { result ≡ P.separator (P.sym symbol) }
{
    match symbol {
        Symbol::Semicolon => b'\n',
        Symbol::OpenBrace => b'\n',
        Symbol::CloseBrace => b'\n',
        _ => b' ',
    }
}

fn put(text: &mut Bytes, spelling: &[u8], separator: u8) -> Result<(), Memory>
    ensures { OnOk result (text.new ≡ (text.old ++ spelling.now) ++ separator ∷ []) }
{
    text.append(spelling)?;
    text.push(separator)
}
