// Writes a section of any kind into space handed in. By offsets, and not with the pen of a listing: a section knows its length beforehand.
ghost use Rattle.std.specs.Prelude.{◌≡◌, ◌+◌, ◌*◌, ◌^◌, ◌<◌, ◌≤◌, length};
ghost use Rattle.roster_file.specs.Sections.{entries, section_bytes};
ghost use Rattle.roster_file.specs.Spaces.{Put};

use crate::read::MOST;
use crate::section::Section;

// How many bytes the section takes: its count and its entries.
pub(crate) fn section_len<S: Section>(section: &S) -> usize
    ensures small { result < 2 ^ 16 }
    ensures len { result ≡ 1 + S.Section.WIDTH * length (entries (S.Section.placed section.now)) }
{
    1 + S::WIDTH * usize::from(count_of(section))
}

// Writes the section from a place on, and answers the place after it.
pub(crate) fn put_section<S: Section>(section: &S, space: &mut [u8], at: usize) -> usize
    requires { «at» + (1 + S.Section.WIDTH * length (entries (S.Section.placed section.now))) ≤ length space.old }
    ensures { Put «at» (section_bytes S.Section.encoded (entries (S.Section.placed section.now))) space.old space.new result }
{
    space[at] = count_of(section);
    let mut next = at + 1;
    // no loop over the `filter_map` below: tried, and the lemmas made of such a loop in generic code are refused
    for place in 0..MOST {
        if let Some(entry) = section.entry_at(place) {
            let end = next + S::WIDTH;
            S::encode(entry, &mut space[next..end]);
            next = end;
        }
    }
    next
}

fn count_of<S: Section>(section: &S) -> u8
    ensures { result ≡ length (entries (S.Section.placed section.now)) }
{
    (0..MOST)
        .filter_map(|place| section.entry_at(place))
        .count() as u8
}
