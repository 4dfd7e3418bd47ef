// A floor's cells and what is estimated of each.
ghost use Rattle.std.specs.Prelude.{◌≡◌, ℕ, ◌≤◌, length};
ghost use Rattle.floor.specs.Floor.{cells, value_at};

use floor::Grid;

/// The cells of a floor, with an estimate of each.
#[derive(Clone, Copy, Debug)]
pub struct Board<'a> {
    pub grid: Grid,
    pub est: &'a [u16],
    ghost few: { cells grid.floor ≤ 4096 },
    ghost long: { length est.now ≡ cells grid.floor },
    ghost small: { (x : ℕ) → value_at est.now x ≤ 65535 },
}
