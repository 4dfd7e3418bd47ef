//! The C interface: each function hands its numbers to an entry, tells the answer's numbers in the lent array, and answers 0 or the
//! refusal's number. include/wexlund.h declares them.
#![tactic(auto)]

ghost use Rattle.std.specs.Prelude.{◌≡◌, ℕ, ◌-◌, ◌<◌, List};
ghost use Rattle.floor.specs.Floor.{value_at, refused};
ghost use Rattle.refusals.specs.Answers.{refused_by, told};
ghost use Rattle.leg.specs.Promise as leg;
ghost use Rattle.walk.specs.Promise as walk;
ghost use Rattle.planner.specs.Interface.{sized, asked, PrepareCall, LegCall, WalkCall, HostLegCall, RequiredCall, WriteCall, CountCall, values, ReadCall};

use floor::{Floor, Lookahead, MoveLimit, Refusal, Setting};
use host::Cart;
use leg::LegDone;
use refusals::{Refused, Task};
use rules::Trip;
use walk::WalkDone;

// What is told of a result: so many numbers, in the order of the interface.
trait Numbers<const N: usize> {
    ghost numbers: { Self → List ℕ };

    fn numbers(self) -> [u64; N]
        ensures { result ≡ numbers self };
}

// Ending, cell, moves and opened.
impl Numbers<4> for LegDone {
    ghost numbers = { leg.numbers };

    #[tactic(auto, unfolding(leg::specs::Promise::numbers, rules::specs::Request::number_of))]
    fn numbers(self) -> [u64; 4] {
        [
            self.ending as u64,
            u64::from(self.cell),
            u64::from(self.moves),
            u64::from(self.opened),
        ]
    }
}

// Ending, cell, moves, legs and opened.
impl Numbers<5> for WalkDone {
    ghost numbers = { walk.numbers };

    #[tactic(auto, unfolding(walk::specs::Promise::numbers, rules::specs::Request::number_of))]
    fn numbers(self) -> [u64; 5] {
        [
            self.ending as u64,
            u64::from(self.cell),
            u64::from(self.moves),
            u64::from(self.legs),
            self.opened,
        ]
    }
}

// The values of a record, in the layout's order.
impl Numbers<10> for Trip {
    ghost numbers = { values };

    #[tactic(auto, unfolding(crate::specs::Interface::values))]
    fn numbers(self) -> [u64; 10] {
        [
            u64::from(self.serial),
            u64::from(self.cart),
            u64::from(self.start),
            u64::from(self.goal),
            u64::from(self.ending),
            u64::from(self.last),
            u64::from(self.moves),
            u64::from(self.required),
            u64::from(self.look),
            u64::from(self.limit),
        ]
    }
}

// Tells the numbers of a result, or of a refusal the cart in the place of the cell and 0 in every other, and answers the refusal's
// number or 0.
#[tactic(auto, unfolding(refusals::specs::Answers::refused_by, refusals::specs::Answers::told))]
fn tell<const N: usize, D: Numbers<N>>(answer: Result<D, Refused>, res: &mut [u64; N]) -> u8
    requires { 1 < N }
    ensures number { result ≡ refused_by answer }
    ensures numbers { res.new ≡ told D.numbers (N - 2) answer }
{
    match answer {
        Ok(done) => {
            *res = done.numbers();
            0
        }
        Err(refused) => {
            res.fill(0);
            res[1] = refused.cart as u64;
            u8::from(refused.refusal)
        }
    }
}

// The number of a refusal, or 0.
#[tactic(auto, unfolding(floor::specs::Floor::refused))]
fn refused<T: Drop>(answer: Result<T, Refusal>) -> u8
    ensures { result ≡ refused answer }
{
    match answer {
        Ok(_) => 0,
        Err(refusal) => u8::from(refusal),
    }
}

// What a leg or a walk is asked in the interface's numbers.
fn task_of(
    width: usize,
    height: usize,
    plan: &[u8],
    goal: usize,
    lookahead: usize,
    limit: usize,
) -> Task<'_>
    ensures { result ≡ record {
      floor = sized width height;
      plan = plan.entry;
      goal = goal;
      setting = record { look = record { 0 = lookahead }; limit = record { 0 = limit } };
    } }
{
    Task {
        floor: Floor { width, height },
        plan,
        goal,
        setting: Setting {
            look: Lookahead(lookahead),
            limit: MoveLimit(limit),
        },
    }
}

/// Preparing: writes into each cell its Manhattan distance to the goal.
#[unsafe(no_mangle)]
pub extern "C" fn wexlund_prepare(width: usize, height: usize, goal: usize, est: &mut [u16]) -> u8
    ensures { PrepareCall (sized width height) goal est.old result est.new }
{
    refused(floor::prepare(Floor { width, height }, goal, est))
}

/// One leg. The result: ending, cell, moves, opened.
#[unsafe(no_mangle)]
pub extern "C" fn wexlund_leg(
    width: usize,
    height: usize,
    plan: &[u8],
    known: &mut [u8],
    est: &mut [u16],
    cart: usize,
    goal: usize,
    lookahead: usize,
    limit: usize,
    trail: &mut [u16],
    res: &mut [u64; 4],
) -> u8
    ensures { LegCall
        (asked (sized width height) plan.now known.old est.old cart goal lookahead limit trail.old)
        result res.new known.new est.new trail.new }
{
    let task = task_of(width, height, plan, goal, lookahead, limit);
    tell(leg::leg(task, known, est, cart, trail), res)
}

/// One walk, with an allowance of moves. The result: ending, cell, moves, legs that searched, cells opened in all.
#[unsafe(no_mangle)]
pub extern "C" fn wexlund_walk(
    width: usize,
    height: usize,
    plan: &[u8],
    known: &mut [u8],
    est: &mut [u16],
    cart: usize,
    goal: usize,
    lookahead: usize,
    limit: usize,
    allowance: usize,
    trail: &mut [u16],
    res: &mut [u64; 5],
) -> u8
    ensures { WalkCall allowance
        (asked (sized width height) plan.now known.old est.old cart goal lookahead limit trail.old)
        result res.new known.new est.new trail.new }
{
    let task = task_of(width, height, plan, goal, lookahead, limit);
    tell(walk::walk(task, known, est, cart, allowance, trail), res)
}

/// One leg for the host's own cart: the record that it lent holds the new cell and running totals of moves, of cells opened and of legs.
#[unsafe(no_mangle)]
pub extern "C" fn wexlund_host_leg(
    cart: &mut [u32; 4],
    width: usize,
    height: usize,
    plan: &[u8],
    known: &mut [u8],
    est: &mut [u16],
    goal: usize,
    lookahead: usize,
    limit: usize,
    trail: &mut [u16],
    res: &mut [u64; 4],
) -> u8
    ensures { HostLegCall cart.old
        (asked (sized width height) plan.now known.old est.old (value_at cart.old 0) goal lookahead limit trail.old)
        result res.new known.new est.new trail.new cart.new }
{
    let task = task_of(width, height, plan, goal, lookahead, limit);
    let hosted = host::leg_for(Cart::from(*cart), task, known, est, trail);
    *cart = hosted.cart.into();
    tell(hosted.answer, res)
}

/// The required figure: the Manhattan distance from start to goal.
#[unsafe(no_mangle)]
pub extern "C" fn wexlund_required(
    width: usize,
    height: usize,
    start: usize,
    goal: usize,
    res: &mut [u64; 1],
) -> u8
    ensures { RequiredCall (sized width height) start goal result res.new }
{
    let answer = floor::required(Floor { width, height }, start, goal);
    *res = [u64::from(answer.unwrap_or(0))];
    refused(answer)
}

/// The writer of one trip record, into a room of 24 bytes.
#[unsafe(no_mangle)]
pub extern "C" fn wexlund_record_write(
    serial: u16,
    cart: u16,
    start: u16,
    goal: u16,
    ending: u8,
    last: u16,
    moves: u32,
    required: u16,
    lookahead: u16,
    limit: u16,
    room: &mut [u8],
) -> u8
    ensures { WriteCall
        (record { serial = serial; cart = cart; start = start; goal = goal; ending = ending; last = last; moves = moves; required = required; look = lookahead; limit = limit })
        room.old result room.new }
{
    let trip = Trip {
        serial,
        cart,
        start,
        goal,
        ending,
        last,
        moves,
        required,
        look: lookahead,
        limit,
    };
    refused(records::write(trip, room))
}

/// The reader: the number of records, 0 for an empty file.
#[unsafe(no_mangle)]
pub extern "C" fn wexlund_record_count(bytes: &[u8], res: &mut [u64; 1]) -> u8
    ensures { CountCall bytes.now result res.new }
{
    let answer = records::count(bytes);
    *res = [answer.unwrap_or(0) as u64];
    refused(answer)
}

/// Fields read by record number, counted from 0, the whole file being tested first.
#[unsafe(no_mangle)]
pub extern "C" fn wexlund_record_read(bytes: &[u8], number: usize, res: &mut [u64; 10]) -> u8
    ensures { ReadCall bytes.now number result res.new }
{
    let answer = records::read(bytes, number);
    *res = answer.map_or([0; 10], Trip::numbers);
    refused(answer)
}
