// What holds of every store and of every iteration. Each function says a law in its contract, and does nothing.

ghost use Rattle.iter_check.specs.Laws.{StoreLaw, LengthLaw, PadLaw};

/// A store touches only the bytes of its element, which are then those of its value.
pub fn law_store_touches_only_its_element()
    ensures { StoreLaw }
{}

/// An iteration keeps how long the record and the pad are.
pub fn law_iteration_keeps_lengths()
    ensures { LengthLaw }
{}

/// The pad of a walk has as many bytes as the fields of the iterator's pad, and keeps them.
pub fn law_walk_has_its_pad()
    ensures { PadLaw }
{}
