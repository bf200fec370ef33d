/// The most places of a tile, for which each slot has room.
pub const PLACES: usize = 256;

/// The most tiles that are listed.
pub const TILES: usize = 16;

/// One slot more, so that there always is a spare one.
pub const SLOTS: usize = 17;

/// Room in all slots.
pub const ENTRIES: usize = 4352;
