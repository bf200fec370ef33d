ghost use Rattle.picture.specs.Prepare.{Prepared};
ghost use Rattle.picture.specs.Refusals.{outcome};
ghost use Rattle.picture.specs.Steps.{formula};
ghost use Rattle.layer.specs.Asked.{Asked};
ghost use Rattle.layer.specs.Layers.{Kept, model_of, standing_step};
ghost use Rattle.std.specs.Prelude.{refl};
ghost use Rattle.std.proofs.Common.{ap};
ghost use Rattle.layer.specs.Placing.{kept-none, kept_follows, kept_shows};
ghost use Rattle.layer.specs.Upright.{standing_allowed, standing_fits};
ghost use Rattle.layer.specs.Bounding.{sized_step, bounded_step, composed-step};

use crate::drawer::Drawer;
use picture::{Fault, Picture, Rect, Refusal, Rows, Size};
use pixel::Kind;
use std::marker::Model;

/// A step laid over a picture.
// That the step can stand over the picture is the drawer's; a layer has a model, since a type with a ghost field that cites the bound could be no field of a caller's type over another layer or cache.
#[derive(Drop)]
pub struct Layer<P: Picture> {
    pub(crate) drawer: Drawer<P>,
}

impl<P: Picture> Model for Layer<P> {
    ghost use Rattle.layer.specs.Layered.{Layered};

    ghost Value = { Layered P };

    ghost view = { λ l. record { below = l.drawer.below; over = l.drawer.over; count = l.drawer.count } };
}

impl<P: Picture> Rows for Layer<P> {
    type Pixel = P::Pixel;

    ghost view = { λ l. (model_of P.Pixel.ops P.model l).shown };

    ghost same = { Kept P.Pixel.ops P.model P.count };

    ghost stays = { λ p. kept-none P.Pixel.ops P.model P.count p p refl refl refl refl };

    ghost follows = { λ p q r a b. kept_follows P.Pixel.ops P.model P.count p q r a b };

    ghost shows = { λ p q a. ap (λ m. m.shown) (kept_shows P.Pixel.ops P.model P.count p q a) };

    fn row(&mut self, left: u32, row: u32, out: &mut [u64]) -> Result<(), Fault> {
        self.drawer.row(left, row, out)
    }
}

impl<P: Picture> Layer<P> {
    /// A prepare that also says how often it asks the picture below.
    pub fn prepare_counted(&mut self, rect: Rect, buffer: &mut [u64]) -> Result<(), Refusal>
        ensures prepared { Prepared P.Pixel.ops (model_of P.Pixel.ops P.model) (λ l. l.count) self.old rect buffer.old result self.new buffer.new }
        ensures asked { Asked (formula self.old.over.step (P.model self.old.below).shown.width (P.model self.old.below).shown.height) rect (outcome result) (P.count self.old.below) (P.count self.new.below) }
    {
        self.drawer.prepare_counted(rect, buffer)
    }
}

impl<P: Picture> Picture for Layer<P> {
    type Pixel = P::Pixel;

    ghost model = { model_of P.Pixel.ops P.model };

    ghost count = { λ l. l.count };

    ghost bare = { λ l. P.bare l.below };

    ghost sized = { λ l.
        let b = (P.model l.below).shown in
        sized_step P.Pixel.ops (standing_step l.over.step b.width b.height) b (P.sized l.below) (standing_allowed l.over.step b.width b.height) (standing_fits l.over.step b.width b.height) };

    ghost bounded = { λ l.
        let b = (P.model l.below).shown in
        bounded_step P.Pixel.ops (standing_step l.over.step b.width b.height) b (P.sized l.below) (P.bounded l.below)
        P.Pixel.blacks P.Pixel.whites P.Pixel.limits (standing_allowed l.over.step b.width b.height) (standing_fits l.over.step b.width b.height) };

    ghost composed = { λ l.
        let m = P.model l.below in
        composed-step P.Pixel.ops (standing_step l.over.step m.shown.width m.shown.height) m (P.composed l.below) };

    fn size(&self) -> Size {
        self.drawer.over.shown()
    }

    fn prepare(&mut self, rect: Rect, buffer: &mut [u64]) -> Result<(), Refusal> {
        self.prepare_counted(rect, buffer)
    }

    fn count(&self) -> u64 {
        self.drawer.count
    }

    fn forget(&mut self) {
        self.drawer.below.forget();
    }
}
