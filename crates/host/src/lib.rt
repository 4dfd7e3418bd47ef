//! One leg for a simulator's own cart: the record that it lends is moved on, and its running totals are kept.
#![tactic(auto)]

ghost use Rattle.std.specs.Prelude.{◌≡◌, [], ◌∷◌};
ghost use Rattle.refusals.specs.Given.{given};
ghost use Rattle.host.specs.Host.{booked, HostPromise};

use leg::{LegDone, leg};
use refusals::{Refused, Task};

/// The record that the host lends: the cart's cell, and running totals of moves, of cells opened and of legs that searched.
#[derive(Clone, Copy, Debug, PartialEq, Eq)]
pub struct Cart {
    pub cell: u32,
    pub moves: u32,
    pub opened: u32,
    pub legs: u32,
}

/// As four numbers, in the order of the fields.
impl From<[u32; 4]> for Cart {
    ghost from_gives = { λ numbers cart. numbers ≡ cart.cell ∷ cart.moves ∷ cart.opened ∷ cart.legs ∷ [] };

    fn from(numbers: [u32; 4]) -> Cart {
        let [cell, moves, opened, legs] = numbers;
        Cart {
            cell,
            moves,
            opened,
            legs,
        }
    }
}

impl From<Cart> for [u32; 4] {
    ghost from_gives = { λ cart numbers. numbers ≡ cart.cell ∷ cart.moves ∷ cart.opened ∷ cart.legs ∷ [] };

    fn from(cart: Cart) -> [u32; 4] {
        [cart.cell, cart.moves, cart.opened, cart.legs]
    }
}

impl Cart {
    // The record after a leg's answer.
    #[tactic(auto, unfolding(crate::specs::Host::booked, crate::specs::Host::capped, crate::specs::Host::searched))]
    fn booked(self, goal: usize, answer: Result<LegDone, Refused>) -> Cart
        ensures { result ≡ booked self goal answer }
    {
        match answer {
            Ok(done) => Cart {
                cell: u32::from(done.cell),
                moves: self.moves.saturating_add(u32::from(done.moves)),
                opened: self.opened.saturating_add(u32::from(done.opened)),
                legs: self
                    .legs
                    .saturating_add(u32::from(self.cell as usize != goal)),
            },
            Err(_) => self,
        }
    }
}

/// A leg's answer with the record after it.
#[derive(Clone, Copy, Debug, PartialEq, Eq)]
pub struct Hosted {
    pub cart: Cart,
    pub answer: Result<LegDone, Refused>,
}

/// One leg for a cart record by value.
#[tactic(auto, unfolding(refusals::specs::Given::given))]
pub fn leg_for(
    cart: Cart,
    task: Task,
    known: &mut [u8],
    est: &mut [u16],
    trail: &mut [u16],
) -> Hosted
    ensures { HostPromise cart (given task.entry known.old est.old cart.cell trail.old) result known.new est.new trail.new }
{
    let answer = leg(task, known, est, cart.cell as usize, trail);
    Hosted {
        cart: cart.booked(task.goal, answer),
        answer,
    }
}

/// Entry: one leg for the host's own cart.
pub fn host_leg(
    cart: &mut Cart,
    task: Task,
    known: &mut [u8],
    est: &mut [u16],
    trail: &mut [u16],
) -> Result<LegDone, Refused>
    ensures { HostPromise cart.old (given task.entry known.old est.old cart.old.cell trail.old)
        (record { cart = cart.new; answer = result }) known.new est.new trail.new }
{
    let hosted = leg_for(*cart, task, known, est, trail);
    *cart = hosted.cart;
    hosted.answer
}
