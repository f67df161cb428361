// The tokens of a text.

mod deep;
mod front;
mod gap;

ghost use Rattle.std.specs.Prelude.{◌≤◌, length};
ghost use Rattle.iter_syntax.specs.Steps.Reading.{TokensAnswer, HasOneReading};
ghost use Rattle.iter_syntax.specs.Steps.Reading.{ReadAnswer};

use crate::fault::SyntaxFault;
use crate::token::Token;
use crate::tree::Place;
use deep::deep_place;
use front::front_token;
use gap::gap_len;
use pulse_base::Listed;
use std::alloc::Global;

/// The tokens of a text in order, in time linear in its length.
pub(crate) fn tokens(alloc: Global, text: &[u8]) -> Result<Listed<Token>, SyntaxFault>
    requires { length text.now ≤ 65536 }
    ensures answer { TokensAnswer text.now result }
    ensures one_reading { HasOneReading text.now }
{
    let found = match read_tokens(alloc, text) {
        Ok(found) => found,
        Err(fault) => return Err(fault),
    };
    match deep_place(found.as_slice()) {
        None => Ok(found),
        Some(at) => Err(SyntaxFault::Deep(at)),
    }
}

// The tokens of a text, however deep.
fn read_tokens(alloc: Global, text: &[u8]) -> Result<Listed<Token>, SyntaxFault>
    requires { length text.now ≤ 65536 }
    ensures { ReadAnswer text.now result }
{
    let mut found = Listed::new(alloc);
    let mut at = gap_len(text);
    while at < text.len() {
        let front = match front_token(&text[at..]) {
            Some(front) => front,
            None => return Err(SyntaxFault::Lex(at as u32)),
        };
        let token = Token {
            place: Place(at as u32),
            kind: front.kind,
        };
        match found.push(token) {
            Ok(()) => {}
            Err(_) => return Err(SyntaxFault::Memory),
        }
        at += front.len;
        at += gap_len(&text[at..]);
    }
    Ok(found)
}
