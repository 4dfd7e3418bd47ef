//! The trip printer: reads a trip's text from standard input, and prints its legs, its end and its estimates, line by line.
#![tactic(auto)]

// The numbers of the standard streams. (Not std's handles: its reading and printing take one statement about the C library as given
// that the kit's `io` does not, how the number of the last error is found.)
const STDIN: i32 = 0;

const STDOUT: i32 = 1;

const STDERR: i32 = 2;

// All that is printed takes at most so many turns: a line for each of 16,384 legs, the end and the estimates.
const MOST_TURNS: usize = 16386;

// Prints what the turns say, one after another. A line that cannot be written is the last.
fn print_trip(text: &[u8]) {
    let mut plan = [0u8; 4096];
    let mut known = [0u8; 4096];
    let mut est = [0u16; 4096];
    let mut out = [0u8; 32768];
    let heard = trip_text::read(text, &mut plan, &mut known, &mut est);
    let mut turn = printer::first(heard);
    for _ in 0..MOST_TURNS {
        let next = printer::take_turn(turn, &plan, &mut known, &mut est);
        let end = trip_lines::put_line(next.line, &est, &mut out);
        if !io::write_all(STDOUT, &out[..end]) {
            io::write_all(STDERR, b"trip: cannot write to standard output\n");
            break;
        }
        if next.turn.is_none() {
            break;
        }
        turn = next.turn;
    }
}

// Reads on, and answers whether there was more to read.
fn read_more() -> bool {
    let mut rest = io::large_buffer();
    io::read_full(STDIN, &mut rest) > 0
}

// Reads on to the end of standard input. Nothing says that it has one, and a proved loop has to end: so the turns are counted, up to a
// number that no run reaches.
fn read_on() {
    for _ in 0..u64::MAX {
        if !read_more() {
            break;
        }
    }
}

// A text that fills the buffer is longer than any lawful one, and its front decides what is printed; what follows is read and dropped.
fn main() {
    let mut text = io::large_buffer();
    let filled = io::read_full(STDIN, &mut text);
    print_trip(&text[..filled]);
    if filled == text.len() {
        read_on();
    }
}
