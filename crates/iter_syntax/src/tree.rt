// The syntax tree of a program.

use arrayvec::ArrayVec;
use pulse_base::Listed;
use sqlite_items::Boxed;

/// The byte offset in the text of the first token of a form that is not `(`.
#[derive(Clone, Copy, Debug, PartialEq, Eq)]
pub struct Place(pub u32);

/// A word of 1 to 32 bytes: a letter `a` to `z`, and then letters, digits and `_`.
#[derive(Debug, Drop)]
pub struct Word {
    pub place: Place,
    pub text: ArrayVec<u8, 32>,
}

/// Records and iterators, each in the order of the text.
#[derive(Debug, Drop)]
pub struct Program {
    pub records: Records,
    pub iters: Iters,
}

pub type Records = Listed<RecordDecl>;

pub type Iters = Listed<Iter>;

pub type Fields = Listed<FieldDecl>;

pub type Args = Listed<Arg>;

pub type Stmts = Listed<Stmt>;

/// `record name { fields }`.
#[derive(Debug, Drop)]
pub struct RecordDecl {
    pub place: Place,
    pub name: Word,
    pub fields: Fields,
}

/// `name : width ;`, or `name : [ width ; len ] ;` for an array.
#[derive(Debug, Drop)]
pub struct FieldDecl {
    pub name: Word,
    pub width: Width,
    pub len: Option<u64>,
}

/// The width of a field or of an array's element: 1, 2, 4, 8 and 8 bytes.
#[derive(Clone, Copy, Debug, PartialEq, Eq)]
pub enum Width {
    U8,
    U16,
    U32,
    U64,
    Ptr,
}

/// `iter name on on { pad init end next }`.
#[derive(Debug, Drop)]
pub struct Iter {
    pub place: Place,
    pub name: Word,
    pub on: Word,
    pub pad: Fields,
    pub args: Args,
    pub init_part: Block,
    pub end_part: Block,
    pub next_part: Block,
}

/// `name : int` or, where `pointer` is true, `name : ptr`.
#[derive(Debug, Drop)]
pub struct Arg {
    pub name: Word,
    pub pointer: bool,
}

/// `{ stmts }`, with the offsets of its braces.
#[cycle(stmt)]
#[derive(Debug, Drop)]
pub struct Block {
    pub place: Place,
    pub stmts: Listed<Stmt>,
    pub close: Place,
}

/// The use of a field, with an index where the field is an array.
#[cycle(expr)]
#[derive(Debug, Drop)]
pub struct FieldUse {
    pub name: Word,
    pub index: Option<Boxed<Expr>>,
}

/// A statement.
#[cycle(stmt)]
#[derive(Debug, Drop)]
pub enum Stmt {
    /// `let name = value ;`
    Let {
        place: Place,
        name: Word,
        value: Expr,
    },
    /// `name = value ;`
    Set {
        place: Place,
        name: Word,
        value: Expr,
    },
    /// `pad . target = value ;`
    SetPad {
        place: Place,
        target: FieldUse,
        value: Expr,
    },
    /// `cur . target = value ;`
    SetCur {
        place: Place,
        target: FieldUse,
        value: Expr,
    },
    /// `if test yes` or `if test yes else no`
    If {
        place: Place,
        test: Expr,
        yes: Block,
        no: Option<Block>,
    },
    /// `for name in first .. past body`
    For {
        place: Place,
        name: Word,
        first: u64,
        past: u64,
        body: Block,
    },
    /// `done ;`
    Done {
        place: Place,
    },
    /// `go to ;`
    Go {
        place: Place,
        to: Expr,
    },
}

/// An expression. Parentheses leave no mark.
#[cycle(expr)]
#[derive(Debug, Drop)]
pub enum Expr {
    Num {
        place: Place,
        value: u64,
    },
    Null {
        place: Place,
    },
    Name {
        name: Word,
    },
    Cur {
        place: Place,
    },
    /// `cur . field`
    CurField {
        place: Place,
        field: FieldUse,
    },
    /// `pad . field`
    PadField {
        place: Place,
        field: FieldUse,
    },
    /// `! of`
    Not {
        place: Place,
        of: Boxed<Expr>,
    },
    /// `~ of`
    Flip {
        place: Place,
        of: Boxed<Expr>,
    },
    /// `left op right`; `op_place` is the offset of the operator.
    Binary {
        op_place: Place,
        op: BinaryOp,
        left: Boxed<Expr>,
        right: Boxed<Expr>,
    },
    /// `at ( base , offset )`
    At {
        place: Place,
        base: Boxed<Expr>,
        offset: Boxed<Expr>,
    },
}

/// A binary operator, from the loosest level to the tightest.
#[derive(Clone, Copy, Debug, PartialEq, Eq)]
pub enum BinaryOp {
    /// `||`
    Or,
    /// `&&`
    And,
    /// `==`
    Eq,
    /// `!=`
    Ne,
    /// `<`
    Lt,
    /// `<=`
    Le,
    /// `>`
    Gt,
    /// `>=`
    Ge,
    /// `&`
    BitAnd,
    /// `|`
    BitOr,
    /// `^`
    BitXor,
    /// `<<`
    Shl,
    /// `>>`
    Shr,
    /// `+`
    Add,
    /// `-`
    Sub,
    /// `*`
    Mul,
    /// `/`
    Div,
    /// `%`
    Mod,
}
