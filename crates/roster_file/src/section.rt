// A kind of section: what an entry is, how many bytes it takes, how it is read from them and written into them.
ghost use Rattle.std.specs.Prelude.{◌≡◌, ℕ, ◌+◌, ◌^◌, ◌<◌, List, [], ◌∷◌, ◌++◌, length, Option, MatchResult};
ghost use Rattle.roster_file.specs.declared.fault.FileFault.{FileFault};

use crate::fault::FileFault;

// A kind of section: its entry and the entry's width.
pub(crate) trait Section: Sized {
    type Entry: Drop;

    const WIDTH: usize;

    ghost WIDTH: { ℕ };

    // the bytes of an entry
    ghost encoded: { Self.Entry → List ℕ };

    // each part of an entry fits its bytes
    ghost fits: { Self.Entry → Type 0 };

    // why bytes at an offset are no entry
    ghost undecodable: { List ℕ → ℕ → FileFault → Type 0 };

    // the section has kept these entries
    ghost holds: { Self → List Self.Entry → Type 0 };

    // why the entry at an offset is not kept
    ghost rejects: { Self → Self.Entry → ℕ → FileFault → Type 0 };

    // the entry at a place of the section; the entries are written by rising place
    ghost placed: { Self → ℕ → Option Self.Entry };

    // A section with no entry yet.
    fn start() -> Self
        ensures { holds result [] };

    // The entry whose bytes stand at an offset of the file.
    fn decode(bytes: &[u8], offset: usize) -> Result<Self::Entry, FileFault>
        requires whole { length bytes.now ≡ WIDTH }
        requires inside { offset + WIDTH < 2 ^ 64 }
        ensures { MatchResult result (λ e. (bytes.now ≡ encoded e) × fits e) (undecodable bytes.now offset) };

    // Takes in the entry that stood at an offset.
    fn keep(&mut self, entry: Self::Entry, offset: usize) -> Result<(), FileFault>
        ensures { MatchResult result (λ _. (es : List Self.Entry) → holds self.old es → holds self.new (es ++ (entry ∷ []))) (rejects self.old entry offset) };

    fn entry_at(&self, place: u8) -> Option<Self::Entry>
        ensures { result ≡ placed self.now place };

    // Writes the bytes of the entry over as many.
    fn encode(entry: Self::Entry, bytes: &mut [u8])
        requires { length bytes.old ≡ WIDTH }
        ensures { bytes.new ≡ encoded «entry» };

    ghost narrow: { WIDTH < 256 };

    ghost wide: { (e : Self.Entry) → length (encoded e) ≡ WIDTH };
}
