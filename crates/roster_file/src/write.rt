// Writes a roster file: the edition, the tasks by rising number, then the order, always named.
ghost use Rattle.std.specs.Prelude.{◌≡◌, ℕ, ◌≤◌, List, length, take, Some, IfOk};
ghost use Rattle.tasks.specs.Spaces.{Written};
ghost use Rattle.roster_file.specs.Layout.{Canonical, HoldsJust};
ghost use Rattle.roster_file.specs.Spaces.{Put};
ghost use Rattle.roster_file.specs.Writing.{assembled, WrittenAs};

use crate::order_section::Numbers;
use crate::read::EDITION;
use crate::task_section::Tasks;
use crate::writer::{put_section, section_len};
use std::alloc::{AllocError, Global};
use tasks::fault::SpaceFault;
use tasks::standing::Standing;

// Writes the file at the front of the space and answers its length, or tells how many bytes it needs and writes none.
pub fn write(standing: &Standing, space: &mut [u8]) -> Result<usize, SpaceFault>
    ensures written { WrittenAs standing.now.table standing.now.order space.old space.new result }
    ensures one_file { (file : List ℕ) → Canonical file standing.now.table standing.now.order → Written file space.old space.new result }
    ensures read_back { IfOk result (λ n. HoldsJust (take n space.new) standing.now.table standing.now.order) }
{
    let needed = file_len(standing);
    if space.len() < needed {
        return Err(SpaceFault { needed });
    }
    Ok(put_file(standing, space))
}

// The file as bytes of its own, or want of memory.
pub fn to_vec(heap: Global, standing: &Standing) -> Result<Vec<u8>, AllocError>
    ensures canonical { IfOk result (λ v. Canonical v.items standing.now.table standing.now.order) }
    ensures one_file { IfOk result (λ v. (file : List ℕ) → Canonical file standing.now.table standing.now.order → v.items ≡ file) }
{
    let mut file = vec![in heap; 0; file_len(standing)]?;
    put_file(standing, file.as_mut_slice());
    Ok(file)
}

fn sections_of(standing: &Standing) -> (Tasks, Numbers)
    ensures { (result.0.table ≡ standing.now.table) × (result.1.order ≡ Some standing.now.order) }
{
    let tasks = Tasks {
        table: *standing.table(),
    };
    let numbers = Numbers {
        order: Some(*standing.order()),
    };
    (tasks, numbers)
}

fn file_len(standing: &Standing) -> usize
    ensures { result ≡ length (assembled standing.now.table standing.now.order) }
{
    let (tasks, numbers) = sections_of(standing);
    1 + section_len(&tasks) + section_len(&numbers)
}

fn put_file(standing: &Standing, space: &mut [u8]) -> usize
    requires { length (assembled standing.now.table standing.now.order) ≤ length space.old }
    ensures { Put 0 (assembled standing.now.table standing.now.order) space.old space.new result }
{
    let (tasks, numbers) = sections_of(standing);
    space[0] = EDITION;
    let at = put_section(&tasks, space, 1);
    put_section(&numbers, space, at)
}
