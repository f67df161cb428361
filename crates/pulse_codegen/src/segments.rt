// The code of both segments.

ghost use Rattle.std.specs.Prelude.{◌≡◌, ◌≤◌, ◌+◌, IfOk};
ghost use Rattle.iter_unroll.specs.Limits.{init_reach, body_reach, Keeps, fs_nodes};
ghost use Rattle.iter_unroll.specs.Tree.{fsts};
ghost use Rattle.flat_code.specs.Segments as s;

use crate::statement::emit_statements;
use crate::value::Code;
use iter_unroll::Flat;
use pulse_base::Memory;
use pulse_isa::Instr;
use std::alloc::Global;

/// The code that begins a walk: it loads all the arguments.
pub(crate) fn init_segment(alloc: Global, flat: &Flat) -> Result<Code, Memory>
    requires keeps { Keeps (init_reach flat.now) (fsts flat.now.init_part) }
    requires few { fs_nodes (fsts flat.now.init_part) ≤ 2000 }
    requires args { flat.now.args ≤ 8 }
    ensures { IfOk result (λ code. code ≡ s.init_code flat.now.args (fsts flat.now.init_part)) }
{
    let mut code = Code::new(alloc);
    code.push(Instr::Load {
        off: 0,
        len: 8 * u16::from(flat.args),
    })?;
    emit_statements(&mut code, flat.init_part.as_slice())?;
    code.push(Instr::Return)?;
    Ok(code)
}

/// The code of an iteration, which loads `len` bytes of the record at `off`.
pub(crate) fn body_segment(alloc: Global, flat: &Flat, off: u16, len: u16) -> Result<Code, Memory>
    requires ends { Keeps (body_reach flat.now) (fsts flat.now.end_part) }
    requires next { Keeps (body_reach flat.now) (fsts flat.now.next_part) }
    requires few { fs_nodes (fsts flat.now.end_part) + fs_nodes (fsts flat.now.next_part) ≤ 2000 }
    ensures { IfOk result (λ code. code ≡ s.body_code off len (fsts flat.now.end_part) (fsts flat.now.next_part)) }
{
    let mut code = Code::new(alloc);
    code.push(Instr::Load { off, len })?;
    emit_statements(&mut code, flat.end_part.as_slice())?;
    emit_statements(&mut code, flat.next_part.as_slice())?;
    code.push(Instr::Return)?;
    Ok(code)
}
