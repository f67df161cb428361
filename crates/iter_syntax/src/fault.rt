// Why a text is no program.

use thiserror::Error;

/// The first fault of a text. Each place is a byte offset in the text.
///
/// `Lex` goes before `Deep`, and `Deep` before `Syntax`: each is tried over the whole text first.
#[derive(Clone, Copy, Debug, PartialEq, Eq, Error)]
pub enum SyntaxFault {
    /// Where neither a separator, a comment nor a token begins.
    #[error("program lex {0}")]
    Lex(u32),
    /// The first token after which more than 32 brackets are open, or which is the 257th since the
    /// last `;`, `{` or `}` or the start.
    #[error("program deep {0}")]
    Deep(u32),
    /// The first token with which the tokens so far begin no program, or the length of the text.
    #[error("program syntax {0}")]
    Syntax(u32),
    /// The want of memory.
    #[error("memory")]
    Memory,
}
