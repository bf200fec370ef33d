ghost use Rattle.std.specs.Prelude.{◌≤◌, length, IfOk};

use crate::words::{Command, Drag, Way};
use picture::{Picture, Rect, Refusal};
use pixel::Kind;

/// What came of a run.
#[derive(Clone, Copy, Default)]
pub struct Sum {
    pub answered: u32,
    pub outside: u32,
    pub holes: u32,
    pub digest: u64,
}

impl Sum {
    fn take(&mut self, number: u64) {
        self.digest = self.digest.wrapping_mul(1_099_511_628_211) ^ number;
    }

    fn answer(&mut self, codes: &[u64]) {
        self.answered = self.answered.saturating_add(1);
        for code in codes {
            self.take(*code);
        }
    }

    fn refuse(&mut self, refusal: Refusal) {
        match refusal {
            Refusal::Hole(fault) => {
                self.holes = self.holes.saturating_add(1);
                self.take(fault.cause.number() as u64);
                self.take(fault.source as u64);
                self.take(fault.column as u64);
                self.take(fault.row as u64);
            }
            other => {
                self.outside = self.outside.saturating_add(1);
                self.take(other.number() as u64);
            }
        }
    }
}

/// The rectangle of a drag's turn, prepared: how many entries of the buffer it filled.
fn prepared<P: Picture>(
    picture: &mut P,
    drag: Drag,
    turn: u32,
    buffer: &mut [u64],
) -> Result<usize, Refusal>
    ensures { IfOk result (λ n. n ≤ length buffer.new) }
{
    let left = drag.left.saturating_add(turn.saturating_mul(drag.across));
    let top = drag.top.saturating_add(turn.saturating_mul(drag.down));
    let rect = Rect::new(left, top, drag.width, drag.height)?;
    picture.prepare(rect, buffer)?;
    Ok(rect.area().min(buffer.len()))
}

/// One prepare of a dragged rectangle.
fn turn<P: Picture>(picture: &mut P, drag: Drag, turn: u32, buffer: &mut [u64], sum: &mut Sum) {
    match prepared(picture, drag, turn, buffer) {
        Ok(n) => sum.answer(&buffer[..n]),
        Err(refusal) => sum.refuse(refusal),
    }
}

/// Carries out the commands of a run.
pub fn drive<P: Picture>(picture: &mut P, commands: &[Command], buffer: &mut [u64]) -> Sum {
    let mut sum = Sum::default();
    for command in commands {
        match *command {
            Command::Forget => picture.forget(),
            Command::Drag(Way::There, drag) => for i in 0..drag.turns {
                turn(picture, drag, i, buffer, &mut sum);
            },
            Command::Drag(Way::Back, drag) => for i in (0..drag.turns).rev() {
                turn(picture, drag, i, buffer, &mut sum);
            },
        }
    }
    sum
}
