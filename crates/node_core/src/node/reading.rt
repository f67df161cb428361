// What a node tells of its regions.

ghost use Rattle.std.specs.Prelude.{◌≡◌, length, position, nat_eq};
ghost use Rattle.node_core.specs.declared.held.Held.{Held};
ghost use Rattle.node_core.specs.Part.{place_by, HoldsRange, IsRange};

use super::Node;
use crate::held::Held;

// The place of the first region of a number.
fn place_in(regions: &[Held], number: u16) -> Option<usize>
    ensures { result ≡ position (λ (r : Held). nat_eq r.number number) regions.now }
{
    regions.iter().position(|region| region.number == number)
}

impl Node {
    // The place of the region of a number.
    pub(crate) fn place_by(&self, number: u16) -> Option<usize>
        ensures { result ≡ place_by self.now number }
    {
        place_in(self.regions.as_slice(), number)
    }

    // Copies bytes of a region that is here.
    pub(crate) fn read_bytes(&self, number: u16, at: usize, out: &mut [u8])
        requires { HoldsRange self.now number at (length out.old) }
        ensures { IsRange self.now number at out.new }
    {
        if let Some(place) = self.place_by(number) {
            let bytes = self.regions[place].bytes.as_slice();
            out.copy_from_slice(&bytes[at..at + out.len()]);
        }
    }
}
