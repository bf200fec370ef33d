ghost use Rattle.cache.specs.Laws.{UsedFirst, UsedStays};
ghost use Rattle.cache.specs.Samples.{FiveSingly, PassedBy, SeventeenSlots};

/// A tile just used is the first of the list, and not the one that leaves next, unless there is one slot.
pub fn used_tiles_stay()
    ensures first { UsedFirst }
    ensures stays { UsedStays }
{}

/// The definitions at two sample pictures, and at too many slots.
pub fn samples_stand()
    ensures singly { FiveSingly }
    ensures bypass { PassedBy }
    ensures slots { SeventeenSlots }
{}
