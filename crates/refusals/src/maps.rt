//! The maps that a leg or a walk is given, and what the refusals 6, 7 and 9 ask of them. No test ends early: a loop with no branch
//! is many cells at a time.
ghost use Rattle.std.specs.Prelude.{◌≡◌, ◌&&◌, ◌||◌, ◌+◌, ◌-◌, ◌*◌, ◌≤◌, ◌<◌, length, leb, eqb};
ghost use Rattle.floor.specs.Floor.{cells, value_at, blocked};
ghost use Rattle.rules.specs.Sound.{every, within, sound};
ghost use Rattle.refusals.specs.Pairs.{pairs_ok};

use floor::Grid;

// Plan, known map and estimates, each as long as the floor has cells.
#[derive(Clone, Copy, Debug)]
pub struct Maps<'a> {
    pub grid: Grid,
    pub plan: &'a [u8],
    pub known: &'a [u8],
    pub est: &'a [u16],
    ghost plan_long: { length plan.now ≡ cells grid.floor },
    ghost known_long: { length known.now ≡ cells grid.floor },
    ghost est_long: { length est.now ≡ cells grid.floor },
}

// (Two tests are inlined in any case: on a small floor their calls cost as much as they do.)
impl Maps<'_> {
    // Whether no byte of plan or known map is above 1.
    pub fn bytes_hold(&self) -> bool
        ensures { result ≡ every (cells self.now.grid.floor)
            (λ x. leb (value_at self.now.plan.now x) 1 && leb (value_at self.now.known.now x) 1) }
    {
        self.plan
            .iter()
            .zip(self.known)
            .fold(true, |ok, (p, k)| (*p <= 1) & (*k <= 1) & ok)
    }

    // Whether the known map is blocked only where the plan is.
    #[inline(always)]
    pub fn within_holds(&self) -> bool
        ensures { result ≡ within self.now.grid.floor (blocked self.now.known.now) (blocked self.now.plan.now) }
    {
        self.plan
            .iter()
            .zip(self.known)
            .fold(true, |ok, (p, k)| ((*p == 1) | (*k != 1)) & ok)
    }

    // Whether each estimate is at most N-1.
    fn low_holds(&self) -> bool
        ensures { result ≡ every (cells self.now.grid.floor)
            (λ x. leb (value_at self.now.est.now x) (cells self.now.grid.floor - 1)) }
    {
        let n = self.grid.cells();
        let most = (n - 1) as u16;
        self.est.iter().fold(true, |ok, e| (*e <= most) & ok)
    }

    // Whether it is so of each two adjoining cells of one row that a pair of them holds. (Rows of one cell have no pairs and are not gone
    // over: on a floor one cell wide that took longer than all other tests.)
    fn rows_hold(&self) -> bool
        ensures { result ≡ every self.now.grid.floor.height (λ q.
            pairs_ok (blocked self.now.known.now) (value_at self.now.est.now)
            (q * self.now.grid.floor.width) (self.now.grid.floor.width - 1) 1) }
    {
        let w = self.grid.floor.width;
        if w == 1 {
            return true;
        }
        let mut ok = true;
        for (k, e) in self.known.chunks_exact(w).zip(self.est.chunks_exact(w)) {
            ok = row_holds(k, e) & ok;
        }
        ok
    }

    // Whether the estimates are sound. Two cells that adjoin follow each other in one row, or are one width apart.
    #[inline(always)]
    pub fn sound_holds(&self, goal: usize) -> bool
        requires { goal < cells self.now.grid.floor }
        ensures { result ≡ sound self.now.grid.floor (blocked self.now.known.now) (value_at self.now.est.now) goal }
    {
        let near = self.rows_hold() & pairs_hold(self.known, self.est, self.grid.floor.width);
        (self.est[goal] == 0) & self.low_holds() & near
    }
}

// Whether one of two cells is blocked, their bytes of the known map being k and l, or their estimates d and e differ by at most 1.
fn pair_holds(k: u8, l: u8, d: u16, e: u16) -> bool
    ensures { result ≡ (eqb k 1 || eqb l 1 || (leb d (e + 1) && leb e (d + 1))) }
{
    (k == 1) | (l == 1) | (d.abs_diff(e) <= 1)
}

// Whether that is so of each cell of a row and the next one.
#[inline(always)]
fn row_holds(known: &[u8], est: &[u16]) -> bool
    requires { (1 ≤ length known.now) × (length known.now ≡ length est.now) }
    ensures { result ≡ pairs_ok (blocked known.now) (value_at est.now) 0 (length known.now - 1) 1 }
{
    let n = known.len() - 1;
    let marks = known[..n].iter().zip(&known[1..1 + n]);
    let values = est[..n].iter().zip(&est[1..1 + n]);
    marks.zip(values).fold(true, |ok, ((k, l), (d, e))| pair_holds(*k, *l, *d, *e) & ok)
}

// Whether that is so of each two cells that are so many numbers apart. (A row's chain stands by itself: of one chain that serves both,
// one use alone becomes a loop of many cells at a time, and as a function that both call it is slow on short rows.)
#[inline(never)]
fn pairs_hold(known: &[u8], est: &[u16], apart: usize) -> bool
    requires { (apart ≤ length known.now) × (length known.now ≡ length est.now) }
    ensures { result ≡ pairs_ok (blocked known.now) (value_at est.now) 0 (length known.now - apart) apart }
{
    let n = known.len() - apart;
    let marks = known[..n].iter().zip(&known[apart..apart + n]);
    let values = est[..n].iter().zip(&est[apart..apart + n]);
    marks.zip(values).fold(true, |ok, ((k, l), (d, e))| pair_holds(*k, *l, *d, *e) & ok)
}
