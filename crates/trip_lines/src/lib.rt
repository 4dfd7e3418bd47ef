// The lines that the trip printer prints, each put into a lent buffer.
#![tactic(auto)]

ghost use Rattle.std.specs.Prelude.{◌≡◌, ◌+◌, ◌*◌, ◌≤◌, [], ◌++◌, length, Some};
ghost use Rattle.std.specs.Fmt.{WritesOnOk};
ghost use Rattle.arrayvec.specs.ArrayString.{array_string_len};
ghost use Rattle.io.specs.Counts.{IsPrefixLen};
ghost use Rattle.rules.specs.Printer.{ascii, decimal, leg_line, end_line, spaced};
ghost use Rattle.trip_lines.specs.Lines.{LinePromise, ended, most, text_of};

use arrayvec::ArrayString;
use floor::Ending;
use itoa::{Buffer, Integer};
use std::fmt;

// The bytes of the string that a line is made in: for any line but that of the estimates, and for that one.
const SHORT: usize = 128;

const LONG: usize = 32768;

/// A line of what is printed.
#[derive(Clone, Copy, Debug, PartialEq, Eq)]
pub enum Line {
    BadInput,
    /// Any number is shown, a refusal's or not: `text_of` has a text for each.
    Refused(u8),
    /// A leg, counted from 1, and the cell after it.
    Leg {
        number: u32,
        opened: u16,
        moves: u16,
        cell: u16,
    },
    /// The end, with the totals.
    End {
        ending: Ending,
        moves: u32,
        legs: u32,
        opened: u32,
    },
    /// The first so many estimates, or all where there are fewer.
    Estimates(usize),
}

// Pushes a word and after it a number in decimal. (Not by `write!`: nothing says of it that it succeeds where there is room.)
fn push_number<I: Integer, const CAP: usize>(word: &str, number: I, text: &mut ArrayString<CAP>)
    requires { array_string_len text.old + length word.now + I.MAX_STR_LEN ≤ CAP }
    ensures pushed { text.new.bytes ≡ text.old.bytes ++ (word.now ++ I.text number) }
    ensures upper_bound { array_string_len text.new ≤ array_string_len text.old + length word.now + I.MAX_STR_LEN }
{
    text.push_str(word);
    text.push_str(Buffer::new().format(number));
}

// Pushes a refusal's line.
#[tactic(auto, using(crate::proofs::Spelling::refused_shown), unfolding(rules::specs::Printer::ascii))]
fn push_refused<const CAP: usize>(number: u8, text: &mut ArrayString<CAP>)
    requires empty { text.old.bytes ≡ [] }
    requires room { 12 ≤ CAP }
    ensures { text.new.bytes ≡ ascii "refused " ++ decimal number ++ ascii "\n" }
{
    push_number("refused ", number, text);
    text.push_str("\n");
}

// Pushes a leg's line.
#[tactic(auto, using(crate::proofs::Spelling::leg_shown), unfolding(rules::specs::Printer::ascii))]
fn push_leg<const CAP: usize>(
    number: u32,
    opened: u16,
    moves: u16,
    cell: u16,
    text: &mut ArrayString<CAP>,
)
    requires empty { text.old.bytes ≡ [] }
    requires room { 51 ≤ CAP }
    ensures { text.new.bytes ≡ leg_line number opened moves cell }
{
    push_number("leg ", number, text);
    push_number(" opened ", opened, text);
    push_number(" moves ", moves, text);
    push_number(" cell ", cell, text);
    text.push_str("\n");
}

// An end line's first words.
#[tactic(auto, unfolding(crate::specs::Lines::ended, rules::specs::Printer::ascii))]
fn end_words(ending: Ending) -> &'static str
    ensures words { result.now ≡ ended ending }
    ensures upper_bound { length result.now ≤ 13 }
{
    match ending {
        Ending::Arrived => "end arrived",
        Ending::CutOff => "end cut off",
        Ending::Spent => "end spent",
        Ending::UnderWay => "end under way",
    }
}

// Pushes the end line.
#[tactic(auto, using(crate::proofs::Spelling::end_shown), unfolding(rules::specs::Printer::ascii))]
fn push_end<const CAP: usize>(
    ending: Ending,
    moves: u32,
    legs: u32,
    opened: u32,
    text: &mut ArrayString<CAP>,
)
    requires empty { text.old.bytes ≡ [] }
    requires room { 66 ≤ CAP }
    ensures { text.new.bytes ≡ end_line ending moves legs opened }
{
    text.push_str(end_words(ending));
    push_number(" moves ", moves, text);
    push_number(" legs ", legs, text);
    push_number(" opened ", opened, text);
    text.push_str("\n");
}

// Pushes the line of estimates: a space and at most five digits for each.
fn push_estimates<const CAP: usize>(estimates: &[u16], text: &mut ArrayString<CAP>)
    requires empty { text.old.bytes ≡ [] }
    requires room { 6 * length estimates.now + 10 ≤ CAP }
    ensures { text.new.bytes ≡ ascii "estimates" ++ spaced estimates.now }
{
    text.push_str("estimates");
    for estimate in estimates {
        push_number(" ", *estimate, text);
    }
    text.push_str("\n");
}

// Pushes a line's text.
#[tactic(auto, unfolding(crate::specs::Lines::most, crate::specs::Lines::text_of, rules::specs::Printer::ascii))]
fn push_line<const CAP: usize>(line: Line, est: &[u16; 4096], text: &mut ArrayString<CAP>)
    requires empty { text.old.bytes ≡ [] }
    requires room { most line ≤ CAP }
    ensures { text.new.bytes ≡ text_of line est.now }
{
    match line {
        Line::BadInput => text.push_str("bad input\n"),
        Line::Refused(number) => push_refused(number, text),
        Line::Leg {
            number,
            opened,
            moves,
            cell,
        } => push_leg(number, opened, moves, cell, text),
        Line::End {
            ending,
            moves,
            legs,
            opened,
        } => push_end(ending, moves, legs, opened, text),
        Line::Estimates(count) => push_estimates(est.get(..count).unwrap_or(est), text),
    }
}

// Puts a line by way of a string of so many bytes.
#[tactic(auto, unfolding(crate::specs::Lines::said_of))]
fn put_by<const CAP: usize>(line: Line, est: &[u16; 4096], out: &mut [u8; 32768]) -> usize
    requires room { most line ≤ CAP }
    requires within { CAP ≤ 32768 }
    ensures line_promise { LinePromise (Some line) est.now out.old result out.new }
    ensures prefix_len { IsPrefixLen result out.new }
{
    let mut text = ArrayString::<CAP>::new();
    push_line(line, est, &mut text);
    let end = text.len();
    out[..end].copy_from_slice(text.as_str().as_bytes());
    end
}

/// Puts a line at the front of `out`, and answers where it ends; no line puts nothing. The estimates are those of the line that shows
/// them.
#[tactic(auto, unfolding(crate::specs::Lines::said_of, crate::specs::Lines::most))]
pub fn put_line(line: Option<Line>, est: &[u16; 4096], out: &mut [u8; 32768]) -> usize
    ensures line_promise { LinePromise line est.now out.old result out.new }
    ensures prefix_len { IsPrefixLen result out.new }
{
    match line {
        None => 0,
        Some(Line::Estimates(count)) => put_by::<LONG>(Line::Estimates(count), est, out),
        Some(line) => put_by::<SHORT>(line, est, out),
    }
}

// Writes a line by way of a string of so many bytes.
fn write_by<const CAP: usize, W: fmt::Write>(
    line: Line,
    est: &[u16; 4096],
    f: &mut fmt::Formatter<W>,
) -> fmt::Result
    requires room { most line ≤ CAP }
    requires within { CAP ≤ 32768 }
    ensures { WritesOnOk W.write_str_gives f.old result (text_of line est.now) f.new }
{
    let mut text = ArrayString::<CAP>::new();
    push_line(line, est, &mut text);
    f.write_str(text.as_str())
}

/// A line beside the estimates that it may show, as `{}` prints it.
#[derive(Clone, Copy)]
pub struct Printed<'a> {
    pub line: Line,
    pub estimates: &'a [u16; 4096],
}

impl fmt::Display for Printed<'_> {
    ghost output = { λ p. Some (text_of p.line p.estimates.now) };

    #[tactic(auto, unfolding(crate::specs::Lines::most))]
    fn fmt<W: fmt::Write>(&self, f: &mut fmt::Formatter<W>) -> fmt::Result {
        match self.line {
            Line::Estimates(_) => write_by::<LONG, W>(self.line, self.estimates, f),
            _ => write_by::<SHORT, W>(self.line, self.estimates, f),
        }
    }
}
