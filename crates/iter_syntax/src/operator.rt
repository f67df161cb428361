// The binary operators: the level and the symbol of each.

ghost use Rattle.std.specs.Prelude.{◌≡◌};
ghost use Rattle.iter_syntax.specs.Operators.{level_of_operator, symbol_of_operator, symbol_operator};

use crate::token::Symbol;
use crate::tree::BinaryOp;

impl BinaryOp {
    /// The level, from 1, the tightest, to 7.
    pub(crate) fn level(self) -> usize
        ensures { result ≡ level_of_operator self }
    {
        match self {
            BinaryOp::Mul | BinaryOp::Div | BinaryOp::Mod => 1,
            BinaryOp::Add | BinaryOp::Sub => 2,
            BinaryOp::Shl | BinaryOp::Shr => 3,
            BinaryOp::BitAnd | BinaryOp::BitOr | BinaryOp::BitXor => 4,
            BinaryOp::Eq
            | BinaryOp::Ne
            | BinaryOp::Lt
            | BinaryOp::Le
            | BinaryOp::Gt
            | BinaryOp::Ge => 5,
            BinaryOp::And => 6,
            BinaryOp::Or => 7,
        }
    }

    pub(crate) fn symbol(self) -> Symbol
        ensures { result ≡ symbol_of_operator self }
    {
        match self {
            BinaryOp::Mul => Symbol::Star,
            BinaryOp::Div => Symbol::Slash,
            BinaryOp::Mod => Symbol::Percent,
            BinaryOp::Add => Symbol::Plus,
            BinaryOp::Sub => Symbol::Minus,
            BinaryOp::Shl => Symbol::ShiftLeft,
            BinaryOp::Shr => Symbol::ShiftRight,
            BinaryOp::BitAnd => Symbol::And,
            BinaryOp::BitOr => Symbol::Or,
            BinaryOp::BitXor => Symbol::Caret,
            BinaryOp::Eq => Symbol::EqualEqual,
            BinaryOp::Ne => Symbol::NotEqual,
            BinaryOp::Lt => Symbol::Less,
            BinaryOp::Le => Symbol::LessEqual,
            BinaryOp::Gt => Symbol::Greater,
            BinaryOp::Ge => Symbol::GreaterEqual,
            BinaryOp::And => Symbol::AndAnd,
            BinaryOp::Or => Symbol::OrOr,
        }
    }

    /// The operator that a symbol is.
    pub(crate) fn of_symbol(symbol: Symbol) -> Option<BinaryOp>
        ensures { result ≡ symbol_operator symbol }
    {
        match symbol {
            Symbol::Star => Some(BinaryOp::Mul),
            Symbol::Slash => Some(BinaryOp::Div),
            Symbol::Percent => Some(BinaryOp::Mod),
            Symbol::Plus => Some(BinaryOp::Add),
            Symbol::Minus => Some(BinaryOp::Sub),
            Symbol::ShiftLeft => Some(BinaryOp::Shl),
            Symbol::ShiftRight => Some(BinaryOp::Shr),
            Symbol::And => Some(BinaryOp::BitAnd),
            Symbol::Or => Some(BinaryOp::BitOr),
            Symbol::Caret => Some(BinaryOp::BitXor),
            Symbol::EqualEqual => Some(BinaryOp::Eq),
            Symbol::NotEqual => Some(BinaryOp::Ne),
            Symbol::Less => Some(BinaryOp::Lt),
            Symbol::LessEqual => Some(BinaryOp::Le),
            Symbol::Greater => Some(BinaryOp::Gt),
            Symbol::GreaterEqual => Some(BinaryOp::Ge),
            Symbol::AndAnd => Some(BinaryOp::And),
            Symbol::OrOr => Some(BinaryOp::Or),
            _ => None,
        }
    }
}
