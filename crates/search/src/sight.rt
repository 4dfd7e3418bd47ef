// What a search sees.
ghost use Rattle.std.specs.Prelude.{◌≡◌, length};
ghost use Rattle.floor.specs.Floor.{cells};

use queue::board::Board;

/// The cells of a floor, with an estimate of each, and which of them are known to be blocked.
#[derive(Clone, Copy, Debug)]
pub struct Sight<'a> {
    pub board: Board<'a>,
    pub known: &'a [u8],
    ghost wide: { length known.now ≡ cells board.grid.floor },
}
