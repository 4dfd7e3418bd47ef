// The text that the trip printer is given: its first line, `width height start goal lookahead limit allowance`, and the rows of the
// floor's plan.
#![tactic(auto)]

ghost use Rattle.std.specs.Prelude.{◌≡◌, true, false, ◌+◌, ◌≤◌, ◌<◌, length, take, drop, MatchOption, MatchResult, IfErr, Err};
ghost use Rattle.floor.specs.Floor.{sizes_ok, cells, tabulate, byte, prepared, refused};
ghost use Rattle.rules.specs.Printer.{row_ok, asked};
ghost use Rattle.trip_text.specs.Heard.{Asked, told, heard_in, Tabled, fronted, ReadPromise};
ghost use Rattle.trip_text.specs.Scan.{index_of};
ghost use Rattle.trip_text.specs.Parts.{number_in, in_place, said, errand_of, rest_ok, mark, errand_refusal};

use floor::{Floor, Grid, Lookahead, MoveLimit, Refusal, Setting};
use refusals::{cells_hold, settings_hold};

/// What the first line asks for.
#[derive(Clone, Copy, Debug, PartialEq, Eq)]
pub struct Errand {
    pub floor: Floor,
    pub start: u32,
    pub goal: usize,
    pub setting: Setting,
    pub allowance: usize,
}

/// Why a text asks for no trip.
#[derive(Clone, Copy, Debug, PartialEq, Eq)]
pub enum Unheard {
    BadInput,
    /// A number and no `Refusal`: the printer's `first` answers any number that it is handed, as `Line::Refused` shows any. (`read` answers
    /// those of the table alone.)
    Refused(u8),
}

impl From<Refusal> for Unheard {
    ghost use Rattle.std.specs.Prelude.{◌≡◌};
    ghost use Rattle.floor.specs.Floor.{number};
    ghost use Rattle.trip_text.specs.declared.Unheard.TheVariants.{Refused};

    ghost from_gives = { λ refusal unheard. unheard ≡ Refused (number refusal) };

    fn from(refusal: Refusal) -> Unheard {
        Unheard::Refused(u8::from(refusal))
    }
}

// The largest allowance.
const MOST_MOVES: u32 = 16384;

// The number that a word says, where there is one: one to nine digits.
fn number(word: Option<&[u8]>) -> Option<u32>
    ensures { result ≡ said number_in word.entry }
{
    let word = word?;
    if word.is_empty() || 9 < word.len() {
        return None;
    }
    let mut value = 0;
    for digit in word {
        if !digit.is_ascii_digit() {
            return None;
        }
        value = value * 10 + u32::from(*digit - b'0');
    }
    Some(value)
}

// The limit that a word says: a number, or a dash, which stands for 1.
fn limit(word: Option<&[u8]>) -> Option<u32>
    ensures { result ≡ said (λ w. number_in (in_place 5 w)) word.entry }
{
    if word == Some(b"-".as_slice()) {
        Some(1)
    } else {
        number(word)
    }
}

// What a first line asks for, if it is lawful.
fn first_line(line: &[u8]) -> Option<Errand>
    ensures { result ≡ errand_of line.now }
{
    let mut words = line.split(|byte| *byte == b' ');
    let width = number(words.next())?;
    let height = number(words.next())?;
    let start = number(words.next())?;
    let goal = number(words.next())?;
    let look = number(words.next())?;
    let limit = limit(words.next())?;
    let allowance = number(words.next())?;
    if words.next().is_some() || MOST_MOVES < allowance {
        return None;
    }
    Some(Errand {
        floor: Floor {
            width: width as usize,
            height: height as usize,
        },
        start,
        goal: goal as usize,
        setting: Setting {
            look: Lookahead(look as usize),
            limit: MoveLimit(limit as usize),
        },
        allowance: allowance as usize,
    })
}

// A text up to its first line feed, and what follows it.
fn cut(text: &[u8]) -> Option<(&[u8], &[u8])>
    ensures { MatchOption result (length text.now ≤ index_of 10 text.now)
        (λ parts. (index_of 10 text.now < length text.now)
        × (parts.0.now ≡ take (index_of 10 text.now) text.now)
        × (parts.1.now ≡ drop (index_of 10 text.now + 1) text.now)) }
{
    let end = text.iter().position(|byte| *byte == b'\n')?;
    Some((&text[..end], &text[end + 1..]))
}

// Whether a line is a row of `width` cells.
fn is_row(line: &[u8], width: usize) -> bool
    ensures { result ≡ row_ok width line.now }
{
    line.len() == width && line.iter().all(|byte| *byte == b'.' || *byte == b'#')
}

// The rows of a grid's plan, and nothing after them.
#[derive(Clone, Copy)]
struct Drawing<'a> {
    text: &'a [u8],
    grid: Grid,
    ghost lawful: { rest_ok text.now grid.floor.width grid.floor.height ≡ true },
}

impl<'a> Drawing<'a> {
    // The grid's rows, if the text is that.
    fn of(text: &'a [u8], grid: Grid) -> Option<Drawing<'a>>
        ensures { MatchOption result (rest_ok text.now grid.floor.width grid.floor.height ≡ false)
            (λ drawing. (drawing.text.now ≡ text.now) × (drawing.grid.floor ≡ grid.floor)) }
    {
        let mut rest = text;
        for _ in 0..grid.floor.height {
            let (line, after) = cut(rest)?;
            if !is_row(line, grid.floor.width) {
                return None;
            }
            rest = after;
        }
        if !rest.is_empty() {
            return None;
        }
        Some(Drawing { text, grid })
    }

    // The plan's byte of a cell. Each row before the cell's has a line feed more than cells.
    fn cell_byte(self, cell: usize) -> u8
        requires { cell < cells self.grid.floor }
        ensures { result ≡ byte (mark self.entry.text.now self.entry.grid.floor.width cell) }
    {
        u8::from(self.text[cell + cell / self.grid.floor.width] == b'#')
    }

    // The first of the refusals 3, 4 and 8: with sizes that hold, a fresh trip meets no other.
    fn check(self, errand: Errand) -> Result<(), Refusal>
        requires { errand.floor ≡ self.grid.floor }
        ensures { refused result ≡ errand_refusal self.entry.text.now errand }
    {
        let start = errand.start as usize;
        if !cells_hold(self.grid.cells(), start, errand.goal) {
            return Err(Refusal::Cells);
        }
        if !settings_hold(errand.setting) {
            return Err(Refusal::Settings);
        }
        if self.cell_byte(start) == 1 {
            return Err(Refusal::Blocked);
        }
        Ok(())
    }

    // Draws the plan, and a known map that is all open.
    fn draw(self, plan: &mut [u8], known: &mut [u8])
        requires { (length plan.old ≡ cells self.grid.floor) × (length known.old ≡ cells self.grid.floor) }
        ensures plan { plan.new ≡ tabulate (cells self.entry.grid.floor) (λ x. byte (mark self.entry.text.now self.entry.grid.floor.width x)) }
        ensures known { known.new ≡ tabulate (cells self.entry.grid.floor) (λ x. 0) }
    {
        for (cell, byte) in plan.iter_mut().enumerate() {
            *byte = self.cell_byte(cell);
        }
        known.fill(0);
    }
}

// The trip that a text asks for, judged in the document's order: the first line's text, refusal 1, the rows' text, the other refusals.
fn hear(text: &[u8]) -> Result<(Errand, Drawing<'_>), Unheard>
    ensures { MatchResult result (λ trip. (heard_in text.now ≡ Asked trip.0)
        × (trip.1.grid.floor ≡ trip.0.floor) × (trip.1.text.now ≡ drop (index_of 10 text.now + 1) text.now))
        (λ unheard. (told (Err unheard) ≡ heard_in text.now) × Tabled unheard) }
{
    let (line, rest) = cut(text).ok_or(Unheard::BadInput)?;
    let errand = first_line(line).ok_or(Unheard::BadInput)?;
    let grid = errand.floor.grid()?;
    let drawing = Drawing::of(rest, grid).ok_or(Unheard::BadInput)?;
    drawing.check(errand)?;
    Ok((errand, drawing))
}

// Lays out a trip at the front of what is lent: its plan, a known map that is all open, and prepared estimates. (They are no struct:
// tried, and two fields behind one reference are not lent at once.)
fn lay(errand: Errand, drawing: Drawing<'_>, plan: &mut [u8], known: &mut [u8], est: &mut [u16])
    requires floor { drawing.grid.floor ≡ errand.floor }
    requires goal { errand.goal < cells errand.floor }
    requires lent { (length plan.old ≡ 4096) × (length known.old ≡ 4096) × (length est.old ≡ 4096) }
    ensures plan { plan.new ≡ fronted (tabulate (cells errand.floor) (λ x. byte (mark drawing.entry.text.now errand.floor.width x))) plan.old }
    ensures known { known.new ≡ fronted (tabulate (cells errand.floor) (λ x. 0)) known.old }
    ensures est { est.new ≡ fronted (prepared errand.floor errand.goal) est.old }
{
    let cells = drawing.grid.cells();
    drawing.draw(&mut plan[..cells], &mut known[..cells]);
    // Sizes, length and goal were judged when the text was heard, so this is no refusal.
    let _ = floor::prepare(errand.floor, errand.goal, &mut est[..cells]);
}

/// Entry: what any bytes ask for. Where they ask for a trip, its plan, its known map and its estimates are laid out at the front of what
/// was lent; else nothing is written.
pub fn read(
    text: &[u8],
    plan: &mut [u8; 4096],
    known: &mut [u8; 4096],
    est: &mut [u16; 4096],
) -> Result<Errand, Unheard>
    ensures read_promise { ReadPromise text.now plan.old known.old est.old result plan.new known.new est.new }
    ensures tabled { IfErr result Tabled }
{
    let (errand, drawing) = hear(text)?;
    lay(errand, drawing, plan, known, est);
    Ok(errand)
}

#[cfg(test)]
mod tests {
    use super::*;

    // What a text that is refused is refused by: sizes, cells, settings, a start on a rack.
    #[test]
    fn refusals_by_their_numbers(rt: HostRuntime) {
        let mut plan = [0u8; 4096];
        let mut known = [0u8; 4096];
        let mut est = [0u16; 4096];
        for (text, number) in [
            ("65 1 0 0 1 1 1\n", 1),
            ("2 1 2 0 1 1 1\n..\n", 3),
            ("2 1 0 1 0 1 1\n..\n", 4),
            ("2 1 0 1 1 1 1\n#.\n", 8),
        ] {
            let heard = read(text.as_bytes(), &mut plan, &mut known, &mut est);
            assert_eq!(rt; heard, Err(Unheard::Refused(number)), "{text}");
        }
        let heard = read(b"2 1 0 1 1 1 1\n..\n", &mut plan, &mut known, &mut est);
        assert!(rt; heard.is_ok());
        assert_eq!(rt; est[0], 1);
    }
}
