// Where brackets or statements grow past the bounds that keep the parser's recursion small.

ghost use Rattle.std.specs.Prelude.{◌≡◌, ◌≤◌};
ghost use Rattle.iter_syntax.specs.Deep.{deep_place, depth_after, ends_stretch};

use crate::token::{Symbol, Token, TokenKind};

const MAX_DEPTH: u32 = 32;

const MAX_STRETCH: u32 = 256;

// The place of the first token after which more than 32 brackets are open, or which is the 257th since
// the last `;`, `{` or `}` or the start.
pub(super) fn deep_place(tokens: &[Token]) -> Option<u32>
    ensures { result ≡ deep_place tokens.now }
{
    let mut depth: u32 = 0;
    let mut stretch: u32 = 0;
    for token in tokens {
        depth = depth_after(depth, &token.kind);
        stretch += 1;
        if depth > MAX_DEPTH || stretch > MAX_STRETCH {
            return Some(token.place.0);
        }
        if ends_stretch(&token.kind) {
            stretch = 0;
        }
    }
    None
}

// How many brackets are open after a token. A closing one takes one away, whatever its kind.
fn depth_after(depth: u32, kind: &TokenKind) -> u32
    requires { depth ≤ 32 }
    ensures { result ≡ depth_after depth kind.now }
{
    match kind {
        TokenKind::Symbol(Symbol::OpenRound) => depth + 1,
        TokenKind::Symbol(Symbol::OpenSquare) => depth + 1,
        TokenKind::Symbol(Symbol::OpenBrace) => depth + 1,
        TokenKind::Symbol(Symbol::CloseRound) => depth.saturating_sub(1),
        TokenKind::Symbol(Symbol::CloseSquare) => depth.saturating_sub(1),
        TokenKind::Symbol(Symbol::CloseBrace) => depth.saturating_sub(1),
        _ => depth,
    }
}

// Whether the count of tokens begins anew after a token.
fn ends_stretch(kind: &TokenKind) -> bool
    ensures { result ≡ ends_stretch kind.now }
{
    match kind {
        TokenKind::Symbol(Symbol::Semicolon) => true,
        TokenKind::Symbol(Symbol::OpenBrace) => true,
        TokenKind::Symbol(Symbol::CloseBrace) => true,
        _ => false,
    }
}
