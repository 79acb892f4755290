// How a refusal is told: every fault type of the library answers these four values.
ghost use Rattle.std.specs.Prelude.{◌≡◌, Some};
ghost use Rattle.tasks.specs.Refusals.{plain};
ghost use Rattle.tasks.specs.Told.{layer_name, refusal_line};
ghost use Rattle.tasks.specs.declared.refusal.Refusal.{Refusal};

use std::fmt;

// The group of questions that a refusal belongs to.
#[derive(Clone, Copy, PartialEq, Eq, Debug)]
pub enum Layer {
    Record,
    Roster,
    Timetable,
    Recovery,
    File,
    Pile,
}

#[derive(Clone, Copy, PartialEq, Eq, Debug)]
pub struct Refusal {
    // a number, since a listing and a user's manual name it so; each stands for a case of a fault, which is an enum
    pub number: u8,
    pub layer: Layer,
    // a task number, an index, a byte offset or a value given, as the question says
    pub place: usize,
    // the number of the fault carried furthest inside, its own number where none is carried
    pub innermost: u8,
}

impl Refusal {
    // A refusal that carries no other inside.
    pub fn new(number: u8, layer: Layer, place: usize) -> Refusal
        ensures { result ≡ plain number layer place }
    {
        Refusal {
            number,
            layer,
            place,
            innermost: number,
        }
    }
}

impl fmt::Display for Layer {
    ghost output = { λ layer. Some (layer_name layer) };

    fn fmt<W: fmt::Write>(&self, f: &mut fmt::Formatter<W>) -> fmt::Result {
        f.write_str(match self {
            Layer::Record => "Record",
            Layer::Roster => "Roster",
            Layer::Timetable => "Timetable",
            Layer::Recovery => "Recovery",
            Layer::File => "File",
            Layer::Pile => "Pile",
        })
    }
}

// Its number, its layer and its place.
impl fmt::Display for Refusal {
    ghost output = { λ refusal. Some (refusal_line refusal) };

    fn fmt<W: fmt::Write>(&self, f: &mut fmt::Formatter<W>) -> fmt::Result {
        let number = self.number;
        let layer = self.layer;
        let place = self.place;
        write!(f, "{number} {layer} {place}")
    }
}

pub trait Fault {
    // What each case tells.
    ghost tells: { Self → Refusal };

    fn refusal(&self) -> Refusal
        ensures { result ≡ tells self.now };

    fn number(&self) -> u8
        ensures { result ≡ (tells self.now).number }
    {
        self.refusal().number
    }

    fn layer(&self) -> Layer
        ensures { result ≡ (tells self.now).layer }
    {
        self.refusal().layer
    }

    fn place(&self) -> usize
        ensures { result ≡ (tells self.now).place }
    {
        self.refusal().place
    }

    fn innermost(&self) -> u8
        ensures { result ≡ (tells self.now).innermost }
    {
        self.refusal().innermost
    }
}
