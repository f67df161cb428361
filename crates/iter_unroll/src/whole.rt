// The straight code of a whole iterator.

ghost use Rattle.std.specs.Prelude.{◌≡◌, ◌≤◌, ◌<◌, [], Some, IfOk, length};
ghost use Rattle.iter_syntax.specs.Tree.{block};
ghost use Rattle.iter_check.specs.Layout as l;
ghost use Rattle.iter_unroll.specs.Tree.{fsts};
ghost use Rattle.iter_unroll.specs.Uses.{flat_uses, iter_uses};
ghost use Rattle.iter_unroll.specs.Span.{HoldsAll};
ghost use Rattle.iter_unroll.specs.Unrolled.{Unrolls, HasSizes, SmallSizes, Iterates, Begins, KeepsAll, FewNodes};
ghost use Rattle.iter_unroll.specs.unrolling.Flattened.{flat_of};
ghost use Rattle.iter_unroll.specs.unrolling.Views.{env_of, shape_of, Small};
ghost use Rattle.iter_unroll.specs.unrolling.Steps.{flat_in};
ghost use Rattle.iter_unroll.specs.unrolling.Whole.{arguments, shape, IsThere};

use crate::block::unroll_block;
use crate::expr::Shape;
use crate::refused::Refused;
use crate::scope::{Meant, Scope};
use crate::tree::{Flat, FlatBlock};
use iter_check::{Checked, record_fields};
use iter_syntax::{Arg, Block, Iter};
use pulse_base::Memory;
use std::alloc::Global;

// The arguments in scope.
fn with_arguments<'a>(alloc: Global, args: &'a [Arg]) -> Result<Scope<'a>, Memory>
    requires few { length args.now ≤ 8 }
    ensures env { IfOk result (λ s. env_of s.entries.items ≡ arguments 0 args.now []) }
    ensures lets { IfOk result (λ s. s.lets ≡ 0) }
{
    let mut scope = Scope::new(alloc);
    'each: for i in 0..args.len() {
        match scope.declare(&args[i].name, Meant::Argument(i as u8)) {
            Ok(()) => {}
            Err(_) => return Err(Memory),
        }
    }
    Ok(scope)
}

// The straight code of a block that has it.
fn unroll_there<'a>(
    alloc: Global,
    shape: &Shape,
    scope: &mut Scope<'a>,
    body: &'a Block,
) -> Result<FlatBlock, Memory>
    requires shape { Small (shape_of shape.now) }
    requires there { IsThere (flat_in (shape_of shape.now) scope.old (block body.now)) }
    ensures { IfOk result (λ b. flat_in (shape_of shape.now) scope.old (block body.now) ≡ Some (fsts b)) }
{
    match unroll_block(alloc, shape, scope, body) {
        Ok(b) => Ok(b),
        Err(Refused::Memory) => Err(Memory),
        Err(Refused::Unknown) => unreachable!(),
    }
}

// Init, which has arguments and no record.
fn unroll_init(alloc: Global, it: &Iter) -> Result<FlatBlock, Memory>
    requires pad { l.size_of it.now.pad ≤ 256 }
    requires args { length it.now.args ≤ 8 }
    requires there { IsThere (flat_of (shape [] it.now) 0 (arguments 0 it.now.args []) (block it.now.init_part)) }
    ensures { IfOk result (λ b. flat_of (shape [] it.now) 0 (arguments 0 it.now.args []) (block it.now.init_part) ≡ Some (fsts b)) }
{
    let mut scope = with_arguments(alloc, it.args.as_slice())?;
    let shape = Shape {
        record_fields: &[],
        pad_fields: it.pad.as_slice(),
    };
    unroll_there(alloc, &shape, &mut scope, &it.init_part)
}

// End or next, which have a record and no arguments.
fn unroll_part(alloc: Global, shape: &Shape, body: &Block) -> Result<FlatBlock, Memory>
    requires shape { Small (shape_of shape.now) }
    requires there { IsThere (flat_of (shape_of shape.now) 0 [] (block body.now)) }
    ensures { IfOk result (λ b. flat_of (shape_of shape.now) 0 [] (block body.now) ≡ Some (fsts b)) }
{
    let mut scope = Scope::new(alloc);
    unroll_there(alloc, shape, &mut scope, body)
}

/// The straight code of the iterator of a number below `iters()`. It takes time in proportion to that
/// code, where each use of a name or of a field goes over those that are declared.
pub fn unroll(alloc: Global, checked: &Checked, iter: usize) -> Result<Flat, Memory>
    requires there { iter < length (checked.now).iters }
    ensures sizes { Unrolls checked.now iter result HasSizes }
    ensures small { IfOk result SmallSizes }
    ensures iterations { Unrolls checked.now iter result Iterates }
    ensures starts { Unrolls checked.now iter result Begins }
    ensures keeps { IfOk result KeepsAll }
    ensures nodes { IfOk result FewNodes }
    ensures uses { Unrolls checked.now iter result (λ fields it flat. flat_uses flat ≡ iter_uses fields it) }
    ensures inside { IfOk result (λ flat. HoldsAll (0, flat.record_size) (flat_uses flat)) }
{
    let it = checked.iter(iter);
    let records = checked.program().records.as_slice();
    let shape = Shape {
        record_fields: record_fields(records, it),
        pad_fields: it.pad.as_slice(),
    };
    let init_part = unroll_init(alloc, it)?;
    let end_part = unroll_part(alloc, &shape, &it.end_part)?;
    let next_part = unroll_part(alloc, &shape, &it.next_part)?;
    Ok(Flat {
        record_size: checked.record_size(iter),
        pad_size: checked.pad_size(iter),
        args: checked.arg_count(iter),
        init_part,
        end_part,
        next_part,
    })
}
