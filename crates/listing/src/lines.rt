// At most thirty-two lines, held by value.
ghost use Rattle.std.specs.Prelude.{◌≡◌, ◌<◌, ◌≤◌, [], ◌∷◌, ◌++◌, length, MatchBool};

use crate::line::Line;
use std::marker::Model;
use tasks::kind::Kind;

// How many lines there is room for.
pub const ROOM: usize = 32;

// What stands where no line was pushed yet.
const BLANK: Line = Line {
    place: 0,
    number: 0,
    kind: Kind::Tolerable,
    normal: None,
    abnormal: None,
};

// A clause sees the lines that were pushed. An array and a count, and no `Vec`: the listing of a plan allocates nothing, and lines are
// `Copy`.
#[derive(Clone, Copy)]
pub struct Lines {
    lines: [Line; ROOM],
    len: usize,
}

impl Model for Lines {
    ghost use Rattle.std.specs.Prelude.{List};
    ghost use Rattle.listing.specs.declared.line.Line.{Line};

    ghost Value = { List Line };

    ghost use Rattle.listing.specs.Rows.{pushed, Padded, padded, padded_pushed};

    ghost view = { pushed };

    ghost invariant = { Padded };

    ghost inverse = { padded };

    ghost inverse_ok = { padded_pushed };
}

impl Lines {
    pub fn new() -> Lines
        ensures { result ≡ [] }
    {
        Lines {
            lines: [BLANK; ROOM],
            len: 0,
        }
    }

    // Adds the line at the end; false, and nothing changed, where there is no room. A no has one reason, so it is no fault to tell.
    pub fn push(&mut self, line: Line) -> bool
        ensures pushed { MatchBool result ((length self.old < 32) × (self.new ≡ self.old ++ line ∷ [])) ((32 ≤ length self.old) × (self.new ≡ self.old)) }
        ensures few { length self.old ≤ 32 }
    {
        if self.len == ROOM {
            return false;
        }
        self.lines[self.len] = line;
        self.len += 1;
        true
    }

    pub fn as_slice(&self) -> &[Line]
        ensures value { result.now ≡ self.now }
        ensures few { length result.now ≤ 32 }
    {
        &self.lines[0..self.len]
    }
}
