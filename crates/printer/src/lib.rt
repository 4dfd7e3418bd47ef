//! The trip printer, turn by turn: a turn says one line and answers what comes after it, until the trip is over.
#![tactic(auto)]

ghost use Rattle.std.specs.Prelude.{ℕ, ◌≡◌, ◌≢◌, ◌<◌, List, Some};
ghost use Rattle.floor.specs.Floor.{cells};
ghost use Rattle.printer.specs.declared.Turn.TheVariants.{Onward};
ghost use Rattle.printer.specs.Turns.{first_turn, after_leg, ended, onward, turned};
ghost use Rattle.printer.specs.Parts.{with_maps, said_by, told_of, Lent, LegDue};
ghost use Rattle.printer.specs.Promise.{TurnPromise};
ghost use Rattle.trip_text.specs.Heard.{told};

use floor::{Ending, Refusal, Setting};
use host::{Cart, leg_for};
use leg::LegDone;
use refusals::Task;
use trip_lines::Line;
use trip_text::{Errand, Unheard};
use walk::leg_limit;

/// What comes next: a leg, or the end where the cart has arrived or its allowance is used up; the end, with the number of cells whose
/// estimates come after it; a last line. (Data, of which a caller keeps the next from call to call, and no closures.)
#[derive(Clone, Copy, Debug, PartialEq, Eq)]
pub enum Turn {
    Onward(Errand, Cart),
    End(Ending, Cart, usize),
    Last(Line),
}

/// The line that a turn says, and what comes after it.
#[derive(Clone, Copy, Debug, PartialEq, Eq)]
pub struct Next {
    pub line: Option<Line>,
    pub turn: Option<Turn>,
}

impl From<Refusal> for Next {
    ghost use Rattle.std.specs.Prelude.{◌≡◌, Err};
    ghost use Rattle.printer.specs.Parts.{said_by};

    ghost from_gives = { λ refusal next. next ≡ said_by (Err refusal) };

    #[tactic(auto, unfolding(crate::specs::Parts::said_by))]
    fn from(refusal: Refusal) -> Next {
        Next {
            line: Some(Line::Refused(u8::from(refusal))),
            turn: None,
        }
    }
}

/// The first turn of what was heard.
#[tactic(auto, unfolding(crate::specs::Turns::first_turn, trip_text::specs::Heard::told))]
pub fn first(heard: Result<Errand, Unheard>) -> Option<Turn>
    ensures { result ≡ first_turn (told heard) }
{
    match heard {
        Err(Unheard::BadInput) => Some(Turn::Last(Line::BadInput)),
        Err(Unheard::Refused(number)) => Some(Turn::Last(Line::Refused(number))),
        Ok(errand) => {
            let cart = Cart {
                cell: errand.start,
                moves: 0,
                opened: 0,
                legs: 0,
            };
            Some(Turn::Onward(errand, cart))
        }
    }
}

// The end's line, and after it the estimates.
#[tactic(auto, unfolding(crate::specs::Turns::ended))]
fn ended(ending: Ending, cart: Cart, n: usize) -> Next
    ensures { (known est : List ℕ) → with_maps result known est ≡ ended ending cart n known est }
{
    let line = Line::End {
        ending,
        moves: cart.moves,
        legs: cart.legs,
        opened: cart.opened,
    };
    Next {
        line: Some(line),
        turn: Some(Turn::Last(Line::Estimates(n))),
    }
}

// After a leg that was cut off comes the end, and after any other the next leg.
#[tactic(auto, unfolding(crate::specs::Turns::after_leg))]
fn after_leg(errand: Errand, after: Cart, ending: Ending, n: usize) -> Turn
    requires { n ≡ cells errand.floor }
    ensures { result ≡ after_leg errand after ending }
{
    match ending {
        Ending::CutOff => Turn::End(Ending::CutOff, after, n),
        _ => Turn::Onward(errand, after),
    }
}

// A leg's line, and what comes after it.
#[tactic(auto, unfolding(crate::specs::Parts::told_of))]
fn leg_made(errand: Errand, after: Cart, done: LegDone, n: usize) -> Next
    requires { n ≡ cells errand.floor }
    ensures { result ≡ told_of errand after done }
{
    let line = Line::Leg {
        number: after.legs,
        opened: done.opened,
        moves: done.moves,
        cell: done.cell,
    };
    Next {
        line: Some(line),
        turn: Some(after_leg(errand, after, done.ending, n)),
    }
}

// Makes a leg: the smaller of the move limit and the moves left, and a trail of its own. (The maps stay three parameters: two of them
// are lent to be written, and of a struct of such loans each contract would have to say that they are still the same.)
fn one_leg(
    errand: Errand,
    cart: Cart,
    n: usize,
    plan: &[u8],
    known: &mut [u8],
    est: &mut [u16],
) -> Result<Next, Refusal>
    requires lent { Lent plan.now known.old est.old }
    requires due { LegDue errand cart n }
    ensures { with_maps (said_by result) known.new est.new ≡ onward errand cart plan.now known.old est.old }
{
    let most = leg_limit(errand.setting.limit, errand.allowance, cart.moves as usize);
    let task = Task {
        floor: errand.floor,
        plan: &plan[..n],
        goal: errand.goal,
        setting: Setting {
            look: errand.setting.look,
            limit: most,
        },
    };
    let mut trail = [0u16; 4096];
    let hosted = leg_for(cart, task, &mut known[..n], &mut est[..n], &mut trail);
    match hosted.answer {
        Ok(done) => Ok(leg_made(errand, hosted.cart, done, n)),
        Err(refused) => Err(refused.refusal),
    }
}

// On the goal, arrived; allowance used up, spent; else a leg.
fn onward(
    errand: Errand,
    cart: Cart,
    plan: &[u8],
    known: &mut [u8],
    est: &mut [u16],
) -> Result<Next, Refusal>
    requires { Lent plan.now known.old est.old }
    ensures { with_maps (said_by result) known.new est.new ≡ turned (Some (Onward errand cart)) plan.now known.old est.old }
{
    let n = errand.floor.grid()?.cells();
    if cart.cell as usize == errand.goal {
        return Ok(ended(Ending::Arrived, cart, n));
    }
    if errand.allowance <= cart.moves as usize {
        return Ok(ended(Ending::Spent, cart, n));
    }
    one_leg(errand, cart, n, plan, known, est)
}

/// Entry: what any turn says, from any maps. A leg moves the known map and the estimates on. When the trip is over, nothing is said.
pub fn take_turn(
    turn: Option<Turn>,
    plan: &[u8; 4096],
    known: &mut [u8; 4096],
    est: &mut [u16; 4096],
) -> Next
    ensures { TurnPromise turn plan.now known.old est.old result known.new est.new }
{
    match turn {
        Some(Turn::Onward(errand, cart)) => {
            onward(errand, cart, plan, known, est).unwrap_or_else(Next::from)
        }
        Some(Turn::End(ending, cart, n)) => ended(ending, cart, n),
        Some(Turn::Last(line)) => Next {
            line: Some(line),
            turn: None,
        },
        None => Next {
            line: None,
            turn: None,
        },
    }
}
