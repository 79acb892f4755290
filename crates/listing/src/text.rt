// A listing and a refusal as bytes in space handed in.
ghost use Rattle.std.specs.Prelude.{◌≤◌, [], ◌∷◌, length, decimal, refl};
ghost use Rattle.std.proofs.Common.{ltb-true};
ghost use Rattle.listing.specs.Texts.{letter, time_text, line_text, listing_text, refusal_text};
ghost use Rattle.tasks.specs.Spaces.{Written};

use crate::line::Line;
use crate::lines::Lines;
use crate::pen::{Pen, Text, write};
use tasks::fault::SpaceFault;
use tasks::kind::Kind;

// Writes the text of the lines, or tells how many bytes it needs.
pub fn write_listing(lines: &Lines, space: &mut [u8]) -> Result<usize, SpaceFault>
    ensures text { Written (listing_text lines.now) space.old space.new result }
    ensures few { length lines.now ≤ 32 }
{
    // asked for what it tells: there are 32 lines at most
    let _few = lines.as_slice();
    write(lines, space)
}

// Writes the text of a refusal's number, or tells how many bytes it needs.
pub fn write_refusal(number: u8, space: &mut [u8]) -> Result<usize, SpaceFault>
    ensures { Written (refusal_text number) space.old space.new result }
{
    write(&Refused(number), space)
}

// The number that a refusal tells.
#[derive(Clone, Copy)]
struct Refused(u8);

impl Text for Refused {
    ghost bytes = { λ r. refusal_text r.0 };

    ghost most = { 19 };

    ghost few = { ltb-true 19 _ refl };

    fn lay(&self, pen: &mut Pen<'_>) {
        pen.put_all(b"refused ");
        (self.0 as u32).lay(pen);
        pen.put(b'\n');
    }
}

impl Text for Lines {
    ghost bytes = { listing_text };

    ghost most = { 1489 };

    ghost few = { ltb-true 1489 _ refl };

    fn lay(&self, pen: &mut Pen<'_>) {
        let lines = self.as_slice();
        pen.put_all(b"order ");
        (lines.len() as u32).lay(pen);
        pen.put(b'\n');
        for line in lines {
            line.lay(pen);
        }
    }
}

impl Text for Line {
    ghost bytes = { line_text };

    ghost most = { 46 };

    ghost few = { ltb-true 46 _ refl };

    fn lay(&self, pen: &mut Pen<'_>) {
        (self.place as u32).lay(pen);
        pen.put(b' ');
        (self.number as u32).lay(pen);
        pen.put(b' ');
        self.kind.lay(pen);
        pen.put(b' ');
        self.normal.lay(pen);
        pen.put(b' ');
        self.abnormal.lay(pen);
        pen.put(b'\n');
    }
}

impl Text for Kind {
    ghost bytes = { λ k. letter k ∷ [] };

    ghost most = { 1 };

    ghost few = { ltb-true 1 _ refl };

    fn lay(&self, pen: &mut Pen<'_>) {
        pen.put(match self {
            Kind::Strict => b'S',
            Kind::Tolerable => b'T',
        });
    }
}

impl Text for Option<u32> {
    ghost bytes = { time_text };

    ghost most = { 10 };

    ghost few = { ltb-true 10 _ refl };

    fn lay(&self, pen: &mut Pen<'_>) {
        match self {
            Some(time) => time.lay(pen),
            None => pen.put(b'-'),
        }
    }
}

impl Text for u32 {
    ghost bytes = { decimal };

    ghost most = { 10 };

    ghost few = { ltb-true 10 _ refl };

    fn lay(&self, pen: &mut Pen<'_>) {
        let n = *self;
        if n < 10 {
            pen.put(b'0' + n as u8);
        } else {
            (n / 10).lay(pen);
            pen.put(b'0' + (n % 10) as u8);
        }
    }
}
