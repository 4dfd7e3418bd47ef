//! The racks of a floor, and what a cart learns of them: sensing, and the look along the rest of its route.
ghost use Rattle.std.specs.Prelude.{◌≡◌, false, ℕ, ◌≤◌, ◌<◌, length};
ghost use Rattle.floor.specs.Floor.{cells, beside, neighbour, leads_to, blocked, value_at};
ghost use Rattle.rules.specs.Leg.{barred};
ghost use Rattle.leg.specs.Moving.{IsKnownMap, Marked, IsOnFloor, first_blocked, Looked};

use floor::{Floor, Grid, Heading};

// A grid and its plan. (What is asked of the known map and of the route is a clause of each function: the one is lent to be written,
// the other is a part of the room, and shorter with each move.)
#[derive(Clone, Copy, Debug)]
pub struct Racks<'a> {
    pub grid: Grid,
    pub plan: &'a [u8],
    ghost long: { length plan.now ≡ cells grid.floor },
    ghost bytes: { (x : ℕ) → value_at plan.now x ≤ 1 },
}

impl Racks<'_> {
    // Senses the neighbour of `cell` in a heading: where it is blocked in the plan it becomes blocked in the known map. Answers whether
    // it was not known so before.
    fn mark(&self, known: &mut [u8], cell: usize, heading: Heading) -> bool
        requires { IsKnownMap self.now.grid.floor known.old × (cell < cells self.now.grid.floor) }
        ensures { Marked (leads_to (neighbour self.now.grid.floor cell heading)) self.now.plan.now known.old known.new result }
    {
        let Some(x) = self.grid.neighbour(cell, heading) else {
            return false;
        };
        if self.plan[x] <= known[x] {
            return false;
        }
        known[x] = 1;
        true
    }

    // Senses all neighbours of `cell`. Answers whether anything new was marked.
    pub fn sense(&self, known: &mut [u8], cell: usize) -> bool
        requires { IsKnownMap self.now.grid.floor known.old × (cell < cells self.now.grid.floor) }
        ensures { Marked (beside self.now.grid.floor cell) self.now.plan.now known.old known.new result }
    {
        let mut new = false;
        for heading in Floor::HEADINGS {
            new |= self.mark(known, cell, heading);
        }
        new
    }

    // Senses from `cell`. Answers whether a cell of the rest of the route is now known blocked; none was before, so the look along it is
    // taken only where something new was marked.
    pub fn sense_and_look(&self, known: &mut [u8], cell: usize, rest: &[u16]) -> bool
        requires known_map { IsKnownMap self.now.grid.floor known.old × (cell < cells self.now.grid.floor) }
        requires on_floor { IsOnFloor self.now.grid.floor rest.now }
        requires free { barred (blocked known.old) rest.now ≡ false }
        ensures { Looked self.now.grid.floor self.now.plan.now known.old cell rest.now known.new result }
    {
        self.sense(known, cell) && first_blocked(self.grid, known, rest) < rest.len()
    }
}

// The place of the first cell of the route that is known blocked, or the route's end. (A loop that yields it by `break`, and no chain,
// since the requirements name this form: docs/sources/01-scope.md, "Required forms by place".)
fn first_blocked(grid: Grid, known: &[u8], route: &[u16]) -> usize
    requires { (length known.now ≡ cells grid.floor) × IsOnFloor grid.floor route.now }
    ensures { result ≡ first_blocked (blocked known.now) 0 route.now }
{
    let mut place = 0;
    loop {
        if place == route.len() {
            break place;
        }
        let cell = usize::from(route[place]);
        if known[cell] == 1 {
            break place;
        }
        place += 1;
    }
}
