ghost use Rattle.layer.specs.Laws.{FirstHoleTold, RegionDecides};

use pixel::Kind;

/// What stands at a place of a composed picture is decided by size, maxval and the places of the source that it needs.
pub fn region_decides<K: Kind>()
    ensures { RegionDecides K.ops }
{}

/// A hole tells the fault of the first hole among the places below that it needs, in their reading order.
pub fn first_hole_told<K: Kind>()
    ensures { FirstHoleTold K.ops }
{}
