// Goes forward over a file without copying it.
ghost use Rattle.std.specs.Prelude.{◌≡◌, ◌+◌, ◌^◌, ◌<◌, ◌≤◌, ◌⊎◌, ◌++◌, length, take, MatchResult};
ghost use Rattle.roster_file.specs.declared.fault.FileFault.TheVariants.{Cut};
ghost use Rattle.roster_file.specs.Sections.{Kept, Stopped};

use crate::fault::FileFault;
use crate::section::Section;

#[derive(Drop)]
pub(crate) struct Reader<'a> {
    pub rest: &'a [u8],
    // the offset in the file at which the rest begins
    pub at: usize,
    ghost inside: { at + length rest.now < 2 ^ 64 },
}

impl<'a> Reader<'a> {
    // The next entry of a section of any kind.
    pub fn next<S: Section>(&mut self) -> Result<S::Entry, FileFault>
        ensures read { MatchResult result (λ e. (self.old.rest.now ≡ S.Section.encoded e ++ self.new.rest.now) × S.Section.fits e × (self.new.at ≡ self.old.at + S.Section.WIDTH)) (λ f. ((length self.old.rest.now < S.Section.WIDTH) × (f ≡ Cut (self.old.at + length self.old.rest.now))) ⊎ ((S.Section.WIDTH ≤ length self.old.rest.now) × S.Section.undecodable (take S.Section.WIDTH self.old.rest.now) self.old.at f)) }
        ensures end { self.new.at + length self.new.rest.now ≡ self.old.at + length self.old.rest.now }
    {
        let Some((bytes, rest)) = self.rest.split_at_checked(S::WIDTH) else {
            return Err(FileFault::Cut(self.at + self.rest.len()));
        };
        let at = self.at;
        self.rest = rest;
        self.at = at + S::WIDTH;
        S::decode(bytes, at)
    }

    // So many entries of a section of any kind, kept one after the other.
    pub fn section<S: Section + Drop>(&mut self, count: u8) -> Result<S, FileFault>
        ensures { MatchResult result (λ s. Kept S.Section.WIDTH S.Section.encoded S.Section.holds self.old.rest.now self.old.at count s self.new.rest.now self.new.at) (Stopped S.Section.WIDTH S.Section.encoded S.Section.fits S.Section.undecodable S.Section.holds S.Section.rejects self.old.rest.now self.old.at count) }
    {
        let mut section = S::start();
        for _kept in 0..count {
            let at = self.at;
            let entry = self.next::<S>()?;
            section.keep(entry, at)?;
        }
        Ok(section)
    }
}
