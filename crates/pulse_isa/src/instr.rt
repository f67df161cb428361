// The instruction table.

/// An instruction. `ra`, `rb` and `rc` are the registers numbered `a`, `b` and `c`; a width `w` is 1, 2, 4 or 8
/// bytes. Offsets of `GETW` and `PUTW` count from the start of the record, or of the arguments in init.
#[derive(Clone, Copy, Debug, PartialEq, Eq)]
pub enum Instr {
    /// 01 `LOAD off len`: the window is `len` bytes at `off`.
    Load { off: u16, len: u16 },
    /// 02 `GETW ra w off`: `ra` = `w` bytes of the window.
    GetW { a: u8, w: u8, off: u32 },
    /// 03 `PUTW ra w off`: the low `w` bytes of `ra` into the window, or NotWritable.
    PutW { a: u8, w: u8, off: u32 },
    /// 04 `GETP ra w off`: `ra` = `w` bytes of the pad.
    GetP { a: u8, w: u8, off: u32 },
    /// 05 `PUTP ra w off`: the low `w` bytes of `ra` into the pad.
    PutP { a: u8, w: u8, off: u32 },
    /// 06 `GETC ra`: `ra` = the pointer to the record.
    GetC { a: u8 },
    /// 07 `SETL ra imm`: `ra` = `imm`.
    SetL { a: u8, imm: u32 },
    /// 08 `SETH ra imm`: `ra` = `ra` modulo 2^32 + `imm` × 2^32.
    SetH { a: u8, imm: u32 },
    /// 09 `MOV ra rb`: `ra` = `rb`.
    Mov { a: u8, b: u8 },
    /// 10 `ADD ra rb rc`: `ra` = `rb` + `rc`, modulo 2^64.
    Add { a: u8, b: u8, c: u8 },
    /// 11 `SUB ra rb rc`: `ra` = `rb` − `rc`, modulo 2^64.
    Sub { a: u8, b: u8, c: u8 },
    /// 12 `MUL ra rb rc`: `ra` = `rb` × `rc`, modulo 2^64.
    Mul { a: u8, b: u8, c: u8 },
    /// 13 `DIV ra rb rc`: `ra` = `rb` / `rc`, rounded down, or DivZero.
    Div { a: u8, b: u8, c: u8 },
    /// 14 `MOD ra rb rc`: `ra` = the remainder of `rb` by `rc`, or DivZero.
    Mod { a: u8, b: u8, c: u8 },
    /// 15 `AND ra rb rc`: `ra` = the bits in both.
    And { a: u8, b: u8, c: u8 },
    /// 16 `OR ra rb rc`: `ra` = the bits in either.
    Or { a: u8, b: u8, c: u8 },
    /// 17 `XOR ra rb rc`: `ra` = the bits in just one.
    Xor { a: u8, b: u8, c: u8 },
    /// 18 `NOT ra rb`: `ra` = the complement of `rb`.
    Not { a: u8, b: u8 },
    /// 19 `SHL ra rb rc`: `ra` = `rb` shifted left by `rc` modulo 64.
    Shl { a: u8, b: u8, c: u8 },
    /// 1a `SHR ra rb rc`: `ra` = `rb` shifted right by `rc` modulo 64.
    Shr { a: u8, b: u8, c: u8 },
    /// 20 `JMP imm`: go on at place `to`.
    Jmp { to: u32 },
    /// 21 `JEQ ra rb imm`: go on at `to` where `ra` = `rb`.
    Jeq { a: u8, b: u8, to: u32 },
    /// 22 `JNE ra rb imm`: go on at `to` where `ra` ≠ `rb`.
    Jne { a: u8, b: u8, to: u32 },
    /// 23 `JLT ra rb imm`: go on at `to` where `ra` < `rb`, unsigned.
    Jlt { a: u8, b: u8, to: u32 },
    /// 24 `JLE ra rb imm`: go on at `to` where `ra` ≤ `rb`, unsigned.
    Jle { a: u8, b: u8, to: u32 },
    /// 30 `RETURN`: done.
    Return,
    /// 31 `NEXT_ITER ra`: go to the pointer `ra`.
    NextIter { a: u8 },
}
