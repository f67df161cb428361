// Fields.

ghost use Rattle.std.specs.Prelude.{◌≡◌, ◌+◌};
ghost use Rattle.iter_check.specs.Layout as l;
ghost use Rattle.iter_unroll.specs.Tree.{fx};
ghost use Rattle.flat_hoist.specs.hoisting.Fields as f;

use iter_check::width_bytes;
use iter_syntax::Width;
use iter_unroll::{FlatExpr, FlatUse};

/// A field, or an element of one, of the record or of the pad: where its bytes begin, and how many they are.
#[derive(Clone, Copy, Debug, PartialEq, Eq)]
pub struct Field {
    pub pad: bool,
    pub off: u16,
    pub width: Width,
}

impl Field {
    /// Where its bytes are past.
    pub fn past(self) -> u64
        ensures { result ≡ self.off + l.width_bytes self.width }
    {
        u64::from(self.off) + width_bytes(self.width)
    }

    /// Whether these are its bytes, where they are of its side.
    pub fn has_bytes(self, bytes: FlatUse) -> bool
        ensures { result ≡ f.has_bytes self bytes.off bytes.width }
    {
        self.off == bytes.off && width_bytes(self.width) == width_bytes(bytes.width)
    }

    /// Whether it has none of these bytes, where they are of its side.
    pub fn misses(self, bytes: FlatUse) -> bool
        ensures { result ≡ f.misses self bytes.off bytes.width }
    {
        let past = u64::from(bytes.off) + width_bytes(bytes.width);
        self.past() <= u64::from(bytes.off) || past <= u64::from(self.off)
    }

    /// A read of it.
    pub fn read(self) -> FlatExpr
        ensures { fx result ≡ f.read_of self }
    {
        let field = FlatUse {
            off: self.off,
            width: self.width,
        };
        if self.pad {
            FlatExpr::PadField { field }
        } else {
            FlatExpr::CurField { field }
        }
    }
}
