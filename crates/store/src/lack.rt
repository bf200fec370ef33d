ghost use Rattle.std.specs.Prelude.{◌≡◌, ◌+◌, ◌^◌, ◌<◌};
ghost use Rattle.store.specs.Reads.{place_of};
ghost use Rattle.store.specs.Stores.{lack_behind};

/// Why a read was refused: the first of its places that is not a byte.
#[derive(Clone, Copy, PartialEq, Eq, Debug)]
pub enum Lack {
    /// The store ends before this place.
    Missing(u64),
    /// The store has this place, but its byte could not be read.
    Unread(u64),
}

impl Lack {
    /// The place that is not a byte.
    pub fn place(self) -> u64
        ensures { result ≡ place_of self }
    {
        match self {
            Lack::Missing(place) | Lack::Unread(place) => place,
        }
    }

    /// The same lack, `by` places further on.
    pub(crate) fn moved(self, by: u64) -> Lack
        requires { by + place_of self < 2 ^ 64 }
        ensures { result ≡ lack_behind by self }
    {
        match self {
            Lack::Missing(place) => Lack::Missing(by + place),
            Lack::Unread(place) => Lack::Unread(by + place),
        }
    }
}
