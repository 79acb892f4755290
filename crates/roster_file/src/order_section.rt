// The order of a file: task numbers of one byte each.
ghost use Rattle.std.specs.Prelude.{◌<◌, [], ◌∷◌};
ghost use Rattle.roster_file.specs.Entries.{KeptNumbers, numbers_in};
ghost use Rattle.std.proofs.Common.{refl, ltb-true};

use crate::fault::FileFault;
use crate::section::Section;
use tasks::order::Order;

// The numbers of an order, or none once there were more than a table has places.
#[derive(Drop)]
pub(crate) struct Numbers {
    pub order: Option<Order>,
}

impl Section for Numbers {
    type Entry = u8;

    const WIDTH: usize = 1;

    ghost WIDTH = { 1 };

    ghost encoded = { λ n. n ∷ [] };

    ghost fits = { λ n. n < 256 };

    ghost undecodable = { λ _ _ _. ⊥ };

    ghost holds = { λ s. KeptNumbers s.order };

    ghost rejects = { λ _ _ _ _. ⊥ };

    ghost placed = { λ s. numbers_in s.order };

    ghost narrow = { ltb-true 1 256 refl };

    ghost wide = { λ _. refl };

    fn start() -> Numbers {
        Numbers {
            order: Some(Order::empty()),
        }
    }

    fn decode(bytes: &[u8], _offset: usize) -> Result<u8, FileFault> {
        Ok(bytes[0])
    }

    fn keep(&mut self, entry: u8, _offset: usize) -> Result<(), FileFault> {
        if let Some(order) = &mut self.order
            && !order.push(entry)
        {
            self.order = None;
        }
        Ok(())
    }

    fn entry_at(&self, place: u8) -> Option<u8> {
        let order = self.order.as_ref()?;
        order.as_slice().get(usize::from(place)).copied()
    }

    fn encode(number: u8, bytes: &mut [u8]) {
        bytes[0] = number;
    }
}
