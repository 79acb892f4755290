// An order of tasks: their numbers, highest priority first, at most one for each place of a table. Clauses see it as the list of its
// numbers.
ghost use Rattle.std.specs.Prelude.{◌≡◌, ◌<◌, ◌≤◌, false, [], ◌∷◌, ◌++◌, reverse, length, if◌then◌else◌, MatchOption, nat_lt};

use crate::table::PLACES;
use std::marker::Model;

// An array and a count, and no `Vec`: planning and reading allocate nothing, and an order is `Copy`. Not one type with the lines of a
// listing: a generic struct may hold no array of a type parameter.
#[derive(Clone, Copy, PartialEq, Eq, Debug)]
pub struct Order {
    numbers: [u8; PLACES],
    len: usize,
}

impl Model for Order {
    ghost use Rattle.std.specs.Prelude.{ℕ, List};

    ghost Value = { List ℕ };

    ghost use Rattle.tasks.specs.Numbers.{numbers_of, WithinPlaces, placed, placed_numbers_of};

    ghost view = { numbers_of };

    ghost invariant = { WithinPlaces };

    ghost inverse = { placed };

    ghost inverse_ok = { placed_numbers_of };
}

impl Order {
    pub fn empty() -> Order
        ensures { result ≡ [] }
    {
        Order {
            numbers: [0; PLACES],
            len: 0,
        }
    }

    // The numbers in their order; none exactly where there are more than a table has places.
    pub fn from_slice(numbers: &[u8]) -> Option<Order>
        ensures { MatchOption result (32 < length numbers.now) (λ o. (o ≡ numbers.now) × (length numbers.now ≤ 32)) }
    {
        let mut order = Order::empty();
        for number in numbers {
            if !order.push(*number) {
                return None;
            }
        }
        Some(order)
    }

    // Whether there is room for the number; it then stands at the end. A no has one reason, so it is no fault to tell: a set's insert
    // answers so too.
    pub fn push(&mut self, number: u8) -> bool
        ensures room { result ≡ nat_lt (length self.old) 32 }
        ensures pushed { self.new ≡ (if result then self.old ++ number ∷ [] else self.old) }
        ensures few { length self.old ≤ 32 }
    {
        if self.len == PLACES {
            return false;
        }
        self.numbers[self.len] = number;
        self.len += 1;
        true
    }

    // The same numbers, the last first.
    pub fn reversed(&self) -> Order
        ensures numbers { result ≡ reverse self.now }
        ensures few { length self.now ≤ 32 }
    {
        let mut numbers = self.numbers;
        let len = self.len;
        numbers[0..len].reverse();
        Order { numbers, len }
    }

    pub fn as_slice(&self) -> &[u8]
        ensures numbers { result.now ≡ self.now }
        ensures few { length self.now ≤ 32 }
    {
        &self.numbers[0..self.len]
    }
}
