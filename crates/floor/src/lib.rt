// The floor, the types that every layer shares, and the two entries that need nothing but the floor: preparing estimates and
// the required figure.
#![tactic(auto)]

ghost use Rattle.std.specs.Prelude.{◌≡◌, true, false, ◌%◌, ◌<◌, length, IfOk, IfErr};
ghost use Rattle.floor.specs.declared.Refusal.TheVariants.{Sizes};
ghost use Rattle.floor.specs.Floor.{cells, manhattan, neighbour, number, sizes_ok, up_to, PreparePromise, prepared, RequiredPromise};

/// One of the four ways to leave a cell.
#[derive(Clone, Copy, Debug, PartialEq, Eq)]
pub enum Heading {
    North,
    West,
    East,
    South,
}

/// A cell's distance from the cart in a search, or no way to it yet. (An enum of our own and no `Option`, since the requirements
/// name its cases: docs/sources/01-scope.md, "Required forms by place".)
#[derive(Clone, Copy, Debug, PartialEq, Eq)]
pub enum Distance {
    Reached(u16),
    Unreached,
}

/// How a leg or a walk ended, by the number that tells it: `Spent` is a walk's alone, `UnderWay` a leg's.
#[derive(Clone, Copy, Debug, PartialEq, Eq)]
pub enum Ending {
    Arrived = 1,
    CutOff = 2,
    Spent = 3,
    UnderWay = 4,
}

/// Why an entry refuses, in the order of the table's numbers, from 1 on.
#[derive(Clone, Copy, Debug, PartialEq, Eq)]
pub enum Refusal {
    /// A side is not in 1 to `Floor::MAX_SIDE`.
    Sizes = 1,
    /// Plan, known map or estimates are not as long as the floor has cells.
    Lengths = 2,
    /// Cart, start or goal is no cell of the floor.
    Cells = 3,
    /// Lookahead or move limit is not in 1 to 4,096.
    Settings = 4,
    /// The trail is too short.
    Trail = 5,
    /// A byte of plan or known map is above 1.
    Bytes = 6,
    /// The known map is blocked where the plan is open.
    KnownMap = 7,
    /// The cart is on a blocked cell.
    Blocked = 8,
    /// The estimates are not sound.
    Estimates = 9,
    /// What is lent for records is not of their size.
    RecordSize = 10,
    /// A record's values break a rule, or there is no record of that number.
    RecordValues = 11,
    /// A serial is not the one after the last.
    Serial = 12,
}

impl From<Refusal> for u8 {
    ghost from_gives = { λ refusal n. n ≡ number refusal };

    fn from(refusal: Refusal) -> u8 {
        refusal as u8
    }
}

/// How many cells a leg may open. (Lookahead and move limit are types of their own, so that neither can be handed over in the
/// other's place.)
#[derive(Clone, Copy, Debug, PartialEq, Eq)]
pub struct Lookahead(pub usize);

/// How many moves a leg may make.
#[derive(Clone, Copy, Debug, PartialEq, Eq)]
pub struct MoveLimit(pub usize);

/// The settings of a leg.
#[derive(Clone, Copy, Debug, PartialEq, Eq)]
pub struct Setting {
    pub look: Lookahead,
    pub limit: MoveLimit,
}

/// Any two numbers; only sizes that `sizes_hold` accepts are a grid's.
#[derive(Clone, Copy, Debug, PartialEq, Eq)]
pub struct Floor {
    pub width: usize,
    pub height: usize,
}

impl Floor {
    pub const MAX_SIDE: usize = 64;

    pub const NORTH: Heading = Heading::North;

    pub const WEST: Heading = Heading::West;

    pub const EAST: Heading = Heading::East;

    pub const SOUTH: Heading = Heading::South;

    /// From the neighbour of the lowest number to that of the highest.
    pub const HEADINGS: [Heading; 4] = [Floor::NORTH, Floor::WEST, Floor::EAST, Floor::SOUTH];

    /// Whether both sides are in 1 to `MAX_SIDE`.
    pub fn sizes_hold(self) -> bool
        ensures { result ≡ sizes_ok self }
    {
        is_up_to(self.width, Floor::MAX_SIDE) && is_up_to(self.height, Floor::MAX_SIDE)
    }

    /// The grid of these sizes, or refusal 1.
    pub fn grid(self) -> Result<Grid, Refusal>
        ensures same { IfOk result (λ grid. grid.floor ≡ self) }
        ensures refuses { IfErr result (λ refusal. (refusal ≡ Sizes) × (sizes_ok self ≡ false)) }
    {
        if self.sizes_hold() {
            Ok(Grid { floor: self })
        } else {
            Err(Refusal::Sizes)
        }
    }

    /// N, the number of cells.
    pub fn cells(self) -> usize
        requires { sizes_ok self ≡ true }
        ensures { result ≡ cells self }
    {
        self.width * self.height
    }

    // A cell's column. (In 32 bits, since older processors divide more slowly in 64; and asked for by the two headings alone that need it,
    // since in a loop over the headings the compiler would divide for each.)
    fn column(self, cell: usize) -> usize
        requires sized { sizes_ok self ≡ true }
        requires on_floor { cell < cells self }
        ensures { result ≡ cell % self.width }
    {
        (cell as u32 % self.width as u32) as usize
    }

    /// The cell that adjoins `cell` in a heading, if there is one.
    pub fn neighbour(self, cell: usize, heading: Heading) -> Option<usize>
        requires sized { sizes_ok self ≡ true }
        requires on_floor { cell < cells self }
        ensures { result ≡ neighbour self cell heading }
    {
        let w = self.width;
        match heading {
            Heading::North => cell.checked_sub(w),
            Heading::West => {
                if self.column(cell) == 0 {
                    None
                } else {
                    Some(cell - 1)
                }
            }
            Heading::East => {
                if self.column(cell) + 1 == w {
                    None
                } else {
                    Some(cell + 1)
                }
            }
            Heading::South => {
                if cell + w < self.cells() {
                    Some(cell + w)
                } else {
                    None
                }
            }
        }
    }

    /// Rows apart and columns apart.
    pub fn manhattan(self, a: usize, b: usize) -> u16
        requires sized { sizes_ok self ≡ true }
        requires on_floor { (a < cells self) × (b < cells self) }
        ensures { result ≡ manhattan self a b }
    {
        // (In 32 bits, since older processors divide more slowly in 64.)
        let w = self.width as u32;
        let rows = (a as u32 / w).abs_diff(b as u32 / w);
        let columns = (a as u32 % w).abs_diff(b as u32 % w);
        (rows + columns) as u16
    }
}

/// A floor whose sizes hold, of which nothing more has to be asked.
#[derive(Clone, Copy, Debug)]
pub struct Grid {
    pub floor: Floor,
    ghost sized: { sizes_ok floor ≡ true },
}

impl Grid {
    /// N, the number of cells.
    pub fn cells(self) -> usize
        ensures { result ≡ cells self.floor }
    {
        self.floor.cells()
    }

    /// The cell that adjoins `cell` in a heading, if there is one.
    pub fn neighbour(self, cell: usize, heading: Heading) -> Option<usize>
        requires { cell < cells self.floor }
        ensures { result ≡ neighbour self.floor cell heading }
    {
        self.floor.neighbour(cell, heading)
    }

    /// Rows apart and columns apart.
    pub fn manhattan(self, a: usize, b: usize) -> u16
        requires { (a < cells self.floor) × (b < cells self.floor) }
        ensures { result ≡ manhattan self.floor a b }
    {
        self.floor.manhattan(a, b)
    }
}

/// Whether `n` is in 1 to `most`, as a side has to be, a lookahead and a move limit.
pub fn is_up_to(n: usize, most: usize) -> bool
    ensures { result ≡ up_to most n }
{
    0 < n && n <= most
}

// Writes each cell's distance to the goal.
fn fill(grid: Grid, goal: usize, est: &mut [u16])
    requires { (goal < cells grid.floor) × (length est.old ≡ cells grid.floor) }
    ensures { est.new ≡ prepared grid.floor goal }
{
    for (cell, estimate) in est.iter_mut().enumerate() {
        *estimate = grid.manhattan(cell, goal);
    }
}

/// Entry: prepares the estimates for trips to a goal. A refusal leaves them as they were.
pub fn prepare(floor: Floor, goal: usize, est: &mut [u16]) -> Result<(), Refusal>
    ensures { PreparePromise floor goal est.old result est.new }
{
    let grid = floor.grid()?;
    if est.len() != grid.cells() {
        return Err(Refusal::Lengths);
    }
    if grid.cells() <= goal {
        return Err(Refusal::Cells);
    }
    fill(grid, goal, est);
    Ok(())
}

/// Entry: the moves that a trip from start to goal calls for.
pub fn required(floor: Floor, start: usize, goal: usize) -> Result<u16, Refusal>
    ensures { RequiredPromise floor start goal result }
{
    let grid = floor.grid()?;
    if grid.cells() <= start || grid.cells() <= goal {
        return Err(Refusal::Cells);
    }
    Ok(grid.manhattan(start, goal))
}
