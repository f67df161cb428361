// An accepted program.

ghost use Rattle.std.specs.Prelude.{◌≡◌, ◌≤◌, ◌<◌, [], length, position, bytes_eq, option_map, slice_get, Some};
ghost use Rattle.iter_check.specs.Layout.{text, size_of};
ghost use Rattle.iter_check.specs.FaultList.{fault_list, record_fields, init_nodes, body_nodes};
ghost use Rattle.iter_check.specs.Accepted.{IsSize, AcceptedIter};

use crate::iterator::record_fields;
use crate::nodes::{body_count, init_count};
use crate::sizes::bytes_of;
use iter_syntax::{Iter, Program};
use std::marker::Model;

/// A program whose fault list is empty. Contracts see the program.
#[derive(Debug, Drop)]
pub struct Checked {
    program: Program,
}

impl Model for Checked {
    ghost use Rattle.std.specs.Prelude.{◌≡◌, []};
    ghost use Rattle.iter_syntax.specs.declared.tree.Program.{Program};
    ghost use Rattle.iter_syntax.specs.contracts.tree.Program as e;

    ghost Value = { Program };

    ghost coded = { e.the_row.coded };

    ghost use Rattle.iter_check.specs.FaultList.{fault_list};

    ghost view = { λ c. c.program };

    ghost invariant = { λ c. fault_list c.program ≡ [] };
}

impl Checked {
    /// A program whose fault list is empty.
    pub(crate) fn accept(program: Program) -> Checked
        requires { fault_list program ≡ [] }
        ensures { result ≡ program }
    {
        Checked { program }
    }

    /// The program, which is accepted.
    pub fn program(&self) -> &Program
        ensures same { result.now ≡ self.now }
        ensures accepted { fault_list self.now ≡ [] }
    {
        &self.program
    }

    /// How many iterators there are.
    pub fn iters(&self) -> usize
        ensures { result ≡ length (self.now).iters }
    {
        self.program.iters.len()
    }

    /// The iterator of a number, with what is known of it since the program is accepted.
    pub fn iter(&self, at: usize) -> &Iter
        requires { at < length (self.now).iters }
        ensures value { slice_get (self.now).iters at ≡ Some result.now }
        ensures accepted { AcceptedIter self.now result.now }
    {
        self.program.iters.get(at)
    }

    /// The number of the iterator of a name.
    pub fn iter_index(&self, name: &[u8]) -> Option<usize>
        ensures { result ≡ position (λ it. bytes_eq (text it.name) name.now) (self.now).iters }
    {
        self.program
            .iters
            .as_slice()
            .iter()
            .position(|it| it.name.text.as_slice() == name)
    }

    /// The bytes of the iterator's records: 1 to 256.
    pub fn record_size(&self, iter: usize) -> u16
        requires { iter < length (self.now).iters }
        ensures value { option_map (λ it. size_of (record_fields (self.now).records it)) (slice_get (self.now).iters iter) ≡ Some result }
        ensures bounds { IsSize result }
    {
        let it = self.iter(iter);
        bytes_of(record_fields(self.program.records.as_slice(), it))
    }

    /// The bytes of the iterator's pad: 1 to 256.
    pub fn pad_size(&self, iter: usize) -> u16
        requires { iter < length (self.now).iters }
        ensures value { option_map (λ it. size_of it.pad) (slice_get (self.now).iters iter) ≡ Some result }
        ensures bounds { IsSize result }
    {
        let it = self.iter(iter);
        bytes_of(it.pad.as_slice())
    }

    /// The number of the iterator's arguments: at most 8.
    pub fn arg_count(&self, iter: usize) -> u8
        requires { iter < length (self.now).iters }
        ensures value { option_map (λ it. length it.args) (slice_get (self.now).iters iter) ≡ Some result }
        ensures bound { result ≤ 8 }
    {
        let it = self.iter(iter);
        it.args.len() as u8
    }

    /// The nodes of the iterator's init and of its body: at most 2,000 each.
    pub fn node_counts(&self, iter: usize) -> (u32, u32)
        requires { iter < length (self.now).iters }
        ensures value { option_map (λ it. (init_nodes it, body_nodes it)) (slice_get (self.now).iters iter) ≡ Some result }
        ensures bounds { (result.0 ≤ 2000) × (result.1 ≤ 2000) }
    {
        let it = self.iter(iter);
        (init_count(it), body_count(it))
    }
}
