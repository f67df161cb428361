// Code as a list, from a slice of instructions.

ghost use Rattle.std.specs.Prelude.{◌≡◌, IfOk};

use code_image::Code;
use pulse_base::Memory;
use pulse_isa::Instr;
use std::alloc::Global;

pub(crate) fn code_of(alloc: Global, instrs: &[Instr]) -> Result<Code, Memory>
    ensures { IfOk result (λ code. code ≡ instrs.now) }
{
    let mut code = Code::new(alloc);
    code.append(instrs)?;
    Ok(code)
}
