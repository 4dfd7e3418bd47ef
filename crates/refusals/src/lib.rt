//! The refusals 1 to 9 of a leg and of a walk.
#![tactic(auto)]

ghost use Rattle.std.specs.Prelude.{◌≡◌, true, false, ◌&&◌, length, ltb, eqb, IfOk, IfErr};
ghost use Rattle.floor.specs.Floor.{number, refused};
ghost use Rattle.rules.specs.Request.{setting_ok, walk_refusal};
ghost use Rattle.refusals.specs.Given.{given};

mod maps;

use floor::{Floor, Refusal, Setting, is_up_to};
use maps::Maps;

// The largest lookahead and the largest move limit.
const MOST: usize = 4096;

/// What stays as it is over the legs of a trip. (Known map, estimates and trail are lent to be written and stand beside it: a struct of
/// such loans would need a clause for each in every contract, that it is still the same loan.)
#[derive(Clone, Copy, Debug, PartialEq, Eq)]
pub struct Task<'a> {
    pub floor: Floor,
    pub plan: &'a [u8],
    pub goal: usize,
    pub setting: Setting,
}

/// A refusal, and the cart as it was given.
#[derive(Clone, Copy, Debug, PartialEq, Eq)]
pub struct Refused {
    pub refusal: Refusal,
    pub cart: usize,
}

// Whether plan, known map and estimates are exactly `n` long.
fn lengths_hold(n: usize, plan: &[u8], known: &[u8], est: &[u16]) -> bool
    ensures { result ≡ (eqb (length plan.now) n && eqb (length known.now) n && eqb (length est.now) n) }
{
    plan.len() == n && known.len() == n && est.len() == n
}

/// Whether cart and goal are below `n`, so that refusal 3 is not given.
pub fn cells_hold(n: usize, cart: usize, goal: usize) -> bool
    ensures { result ≡ (ltb cart n && ltb goal n) }
{
    cart < n && goal < n
}

/// Whether lookahead and move limit are in 1 to 4,096, so that refusal 4 is not given.
#[tactic(auto, unfolding(rules::specs::Request::setting_ok))]
pub fn settings_hold(setting: Setting) -> bool
    ensures { result ≡ setting_ok (record { look = setting.look.0; limit = setting.limit.0 }) }
{
    is_up_to(setting.look.0, MOST) && is_up_to(setting.limit.0, MOST)
}

// The refusal of a test that does not hold.
fn require(holds: bool, reason: Refusal) -> Result<(), Refusal>
    ensures passed { IfOk result (λ _. holds ≡ true) }
    ensures failed { IfErr result (λ refusal. (refusal ≡ reason) × (holds ≡ false)) }
{
    if holds { Ok(()) } else { Err(reason) }
}

/// The first refusal, 1 to 9 in the table's order, that a leg or a walk meets whose trail has to hold `needed` moves.
#[tactic(auto, unfolding(crate::specs::Given::given, rules::specs::Request::walk_refusal, floor::specs::Floor::refusal, floor::specs::Floor::refused, floor::specs::Floor::blocked, floor::specs::Floor::value_at))]
pub fn check(
    task: Task,
    known: &[u8],
    est: &[u16],
    cart: usize,
    needed: usize,
    trail: &[u16],
) -> Result<(), Refusal>
    ensures { refused result ≡ walk_refusal needed (given task.entry known.now est.now cart trail.now) }
{
    let grid = task.floor.grid()?;
    let n = grid.cells();
    require(lengths_hold(n, task.plan, known, est), Refusal::Lengths)?;
    require(cells_hold(n, cart, task.goal), Refusal::Cells)?;
    require(settings_hold(task.setting), Refusal::Settings)?;
    require(needed <= trail.len(), Refusal::Trail)?;
    let maps = Maps {
        grid,
        plan: task.plan,
        known,
        est,
    };
    require(maps.bytes_hold(), Refusal::Bytes)?;
    require(maps.within_holds(), Refusal::KnownMap)?;
    require(task.plan[cart] != 1, Refusal::Blocked)?;
    require(maps.sound_holds(task.goal), Refusal::Estimates)
}

/// The first refusal, and the cart as it was given.
#[tactic(auto, unfolding(floor::specs::Floor::refused))]
pub fn admit(
    task: Task,
    known: &[u8],
    est: &[u16],
    cart: usize,
    needed: usize,
    trail: &[u16],
) -> Result<(), Refused>
    ensures accepts { IfOk result (λ _. walk_refusal needed (given task.entry known.now est.now cart trail.now) ≡ 0) }
    ensures refuses { IfErr result (λ r. (r.cart ≡ cart)
        × (number r.refusal ≡ walk_refusal needed (given task.entry known.now est.now cart trail.now))) }
{
    check(task, known, est, cart, needed, trail).map_err(|refusal| Refused { refusal, cart })
}
