// Texts laid byte by byte in space handed in.
ghost use Rattle.std.specs.Prelude.{ℕ, ◌+◌, ◌^◌, ◌<◌, ◌≤◌, List, [], ◌∷◌, length};
ghost use Rattle.listing.specs.Pens.{Lays, Front};
ghost use Rattle.tasks.specs.Spaces.{Written};

use tasks::fault::SpaceFault;

// Where the next byte goes in a space; past its end a pen only counts.
#[derive(Drop)]
pub(crate) struct Pen<'a> {
    space: &'a mut [u8],
    at: usize,
}

impl Pen<'_> {
    pub fn put(&mut self, byte: u8)
        requires { self.old.at + 1 < 2 ^ 64 }
        ensures { Lays (byte ∷ []) self.old self.new }
    {
        if self.at < self.space.len() {
            self.space[self.at] = byte;
        }
        self.at += 1;
    }

    pub fn put_all(&mut self, bytes: &[u8])
        requires { self.old.at + length bytes.now < 2 ^ 64 }
        ensures { Lays bytes.now self.old self.new }
    {
        for &byte in bytes {
            self.put(byte);
        }
    }
}

// What can be written as a text. Not `Display`: a contract of `fmt` says what is written where it answers `Ok`, and not that it does.
pub(crate) trait Text {
    ghost bytes: { Self → List ℕ };

    // no text of the kind has more bytes
    ghost most: { ℕ };

    ghost few: { most < 2 ^ 64 };

    fn lay(&self, pen: &mut Pen<'_>)
        requires { pen.old.at + most < 2 ^ 64 }
        ensures lays { Lays (bytes self.now) pen.old pen.new }
        ensures short { pen.new.at ≤ pen.old.at + most };
}

// Writes the text, or tells how many bytes it needs. It is laid over no space first, which tells its length, so that a space that is too
// short is not touched.
pub(crate) fn write<T: Text>(text: &T, space: &mut [u8]) -> Result<usize, SpaceFault>
    ensures { Written (T.Text.bytes text.now) space.old space.new result }
{
    let needed = lay_in(text, &mut []);
    if space.len() < needed {
        return Err(SpaceFault { needed });
    }
    Ok(lay_in(text, space))
}

// Lays the text from the front of the space, as far as it reaches, and answers the text's length.
fn lay_in<T: Text>(text: &T, space: &mut [u8]) -> usize
    ensures { Front (T.Text.bytes text.now) space.old space.new result }
{
    let mut pen = Pen { space, at: 0 };
    text.lay(&mut pen);
    pen.at
}
