ghost use Rattle.std.specs.Prelude.{◌≡◌};
ghost use Rattle.layer.specs.declared.undrawn.Undrawn.TheVariants.{Hole};

use picture::Fault;

/// Why a part was not drawn at once.
#[derive(Clone, Copy)]
pub(crate) enum Undrawn {
    /// It lies across an edge, or the region that it needs has no room.
    Uncut,
    /// The region that it needs has a hole.
    Hole(Fault),
}

impl From<Fault> for Undrawn {
    ghost from_gives = { λ f u. u ≡ Hole f };

    fn from(fault: Fault) -> Undrawn {
        Undrawn::Hole(fault)
    }
}
