// Tries each rule of trip records: with a record or a file that breaks this rule and no other, and with one on the lawful side of it.
// What it has to print stands in the file stdout; it follows from document 01 and was written down from there.
#![tactic(auto)]

ghost use Rattle.std.specs.Prelude.{◌+◌, ◌≤◌};

use arrayvec::ArrayString;
use floor::Refusal;
use records::{Record, SIZE};
use rules::Trip;
use std::fmt::{self, Write};

// Standard output, written by `io` and not by std, whose printing would rest on one more statement about the C library.
const STDOUT: i32 = 1;

// The bytes that any line here fits in.
const LINE: usize = 128;

// Each value at the largest that is lawful, and the last cell not the goal: serial 65,535, cart 65,535, start 4,095, goal 4,095,
// ending 3, last cell 4,094, moves 16,769,025, required 126, lookahead 4,096, move limit 4,096.
const LARGEST: Record = Record(
    *b"\xFF\xFF\xFF\xFF\xFF\x0F\xFF\x0F\x03\x00\xFE\x0F\x01\xE0\xFF\x00\x7E\x00\x00\x10\x00\x10\x00\x00",
);

// Each value at the smallest that is lawful, and the last cell the goal.
const SMALLEST: Record = Record(
    *b"\x00\x00\x00\x00\x00\x00\x00\x00\x01\x00\x00\x00\x00\x00\x00\x00\x00\x00\x01\x00\x01\x00\x00\x00",
);

// Case F's trip as case J records it, with any serial.
fn trip_f(serial: u16) -> Trip {
    Trip {
        serial,
        cart: 7,
        start: 0,
        goal: 2,
        ending: 1,
        last: 2,
        moves: 4,
        required: 2,
        look: 1,
        limit: 1,
    }
}

// Prints a line. What cannot be printed is not said, and the lines after it are tried all the same.
fn say(line: impl fmt::Display + Drop) {
    let mut text = ArrayString::<LINE>::new();
    let _ = writeln!(text, "{line}");
    io::write_all(STDOUT, text.as_bytes());
}

// What counting answered. (Three types for what is answered, as each says its own words.)
#[derive(Clone, Copy, Debug, PartialEq, Eq)]
struct Counted(Result<usize, Refusal>);

impl fmt::Display for Counted {
    fn fmt<W: fmt::Write>(&self, f: &mut fmt::Formatter<W>) -> fmt::Result {
        match self.0 {
            Ok(records) => write!(f, "count {records}"),
            Err(refusal) => write!(f, "count refused {}", u8::from(refusal)),
        }
    }
}

// What the writer answered.
#[derive(Clone, Copy, Debug, PartialEq, Eq)]
struct Written(Result<u16, Refusal>);

impl fmt::Display for Written {
    fn fmt<W: fmt::Write>(&self, f: &mut fmt::Formatter<W>) -> fmt::Result {
        match self.0 {
            Ok(next) => write!(f, "written, next {next}"),
            Err(refusal) => write!(f, "write refused {}", u8::from(refusal)),
        }
    }
}

// What reading by number answered.
#[derive(Clone, Copy, Debug, PartialEq, Eq)]
struct Read(Result<Trip, Refusal>);

impl fmt::Display for Read {
    fn fmt<W: fmt::Write>(&self, f: &mut fmt::Formatter<W>) -> fmt::Result {
        match self.0 {
            Ok(trip) => {
                let Trip {
                    serial,
                    cart,
                    start,
                    goal,
                    ending,
                    last,
                    moves,
                    required,
                    look,
                    limit,
                } = trip;
                write!(
                    f,
                    "read {serial} {cart} {start} {goal} {ending} {last} {moves} {required} {look} {limit}"
                )
            }
            Err(refusal) => write!(f, "read refused {}", u8::from(refusal)),
        }
    }
}

// Bytes in hexadecimal digits, a space before each.
#[derive(Clone, Copy, Debug, PartialEq, Eq)]
struct Hex<'a>(&'a [u8]);

impl fmt::Display for Hex<'_> {
    fn fmt<W: fmt::Write>(&self, f: &mut fmt::Formatter<W>) -> fmt::Result {
        self.0.iter().try_for_each(|byte| write!(f, " {byte:02x}"))
    }
}

// A record with two other bytes from `at` on.
#[derive(Clone, Copy)]
struct RecordTrial {
    name: &'static str,
    record: Record,
    at: usize,
    bytes: [u8; 2],
    ghost within: { at + 2 ≤ 24 },
}

impl RecordTrial {
    fn new(name: &'static str, record: Record, at: usize, bytes: [u8; 2]) -> RecordTrial
        requires { at + 2 ≤ 24 }
    {
        RecordTrial {
            name,
            record,
            at,
            bytes,
        }
    }

    fn changed(&self) -> Record {
        let mut bytes = self.record.0;
        bytes[self.at..self.at + 2].copy_from_slice(&self.bytes);
        Record(bytes)
    }
}

// The rules of a record's own values: each record is counted as a file of its own, and its values are written.
fn values() {
    let trials = [
        RecordTrial::new("the largest values", LARGEST, 22, [0, 0]),
        RecordTrial::new("the smallest values", SMALLEST, 22, [0, 0]),
        RecordTrial::new("start 4096", LARGEST, 4, [0, 0x10]),
        RecordTrial::new("goal 4096", LARGEST, 6, [0, 0x10]),
        RecordTrial::new("ending 0", LARGEST, 8, [0, 0]),
        RecordTrial::new("ending 2", LARGEST, 8, [2, 0]),
        RecordTrial::new("ending 4", LARGEST, 8, [4, 0]),
        RecordTrial::new("ending 1 off the goal", LARGEST, 8, [1, 0]),
        RecordTrial::new("ending 2 on the goal", SMALLEST, 8, [2, 0]),
        RecordTrial::new("ending 3 on the goal", SMALLEST, 8, [3, 0]),
        RecordTrial::new("last cell 4096", LARGEST, 10, [0, 0x10]),
        RecordTrial::new("moves 16769026", LARGEST, 12, [0x02, 0xE0]),
        RecordTrial::new("required 127", LARGEST, 16, [0x7F, 0]),
        RecordTrial::new("lookahead 0", SMALLEST, 18, [0, 0]),
        RecordTrial::new("lookahead 4097", LARGEST, 18, [0x01, 0x10]),
        RecordTrial::new("move limit 0", SMALLEST, 20, [0, 0]),
        RecordTrial::new("move limit 4097", LARGEST, 20, [0x01, 0x10]),
        RecordTrial::new("9 not zero", SMALLEST, 8, [1, 1]),
        RecordTrial::new("22 not zero", SMALLEST, 22, [1, 0]),
        RecordTrial::new("23 not zero", SMALLEST, 22, [0, 1]),
    ];
    for trial in trials {
        let record = trial.changed();
        let count = Counted(records::count(&record.0));
        let mut room = [0; SIZE];
        let written = Written(records::write(records::trip_at(&record.0, 0), &mut room));
        say(format_args!("{}: {count}, {written}", trial.name));
    }
}

// A file of three records.
fn three(serials: [u16; 3]) -> [u8; 72] {
    let mut file = [0; 72];
    for (place, serial) in file.chunks_exact_mut(SIZE).zip(serials) {
        let _ = records::write(trip_f(serial), place);
    }
    file
}

// Whether each serial is the one after the serial before.
fn serials() {
    let trials = [
        [0, 1, 2],
        [65533, 65534, 65535],
        [65534, 65535, 0],
        [65535, 0, 1],
        [5, 5, 6],
        [5, 6, 8],
        [6, 5, 4],
        [65535, 1, 2],
        [65535, 65535, 0],
        [65534, 0, 1],
        [0, 65535, 0],
    ];
    for serials in trials {
        let [first, second, third] = serials;
        let count = Counted(records::count(&three(serials)));
        say(format_args!("serials {first} {second} {third}: {count}"));
    }
}

// Serials that break at the record of number 1, and an ending of 0 in one of the records.
fn order() {
    for (place, ending) in [("before", 8), ("beside", 32), ("after", 56)] {
        let mut file = three([5, 7, 8]);
        file[ending] = 0;
        let count = Counted(records::count(&file));
        say(format_args!("a value {place} the serial: {count}"));
    }
}

// The first bytes of a file.
fn lengths() {
    let file = three([65535, 0, 1]);
    for bytes in [0, 1, 23, 24, 25, 48, 71, 72] {
        let count = Counted(records::count(&file[..bytes]));
        say(format_args!("bytes {bytes}: {count}"));
    }
}

// Reading by number: the largest values, a lawful file and numbers past its end, and files that are refused as they stand.
fn numbers() {
    let largest = LARGEST;
    let file = three([65535, 0, 1]);
    let broken = three([5, 6, 8]);
    let trials = [
        (&largest.0[..], 0),
        (&file[..], 0),
        (&file[..], 1),
        (&file[..], 2),
        (&file[..], 3),
        (&file[..], usize::MAX),
        (&file[..0], 0),
        (&file[..71], 0),
        (&broken[..], 0),
        (&broken[..], 3),
        (&broken[..71], 0),
    ];
    for (file, number) in trials {
        say(Read(records::read(file, number)));
    }
}

// Rooms of other lengths and a broken rule leave the room as it was; then case J and the largest values, byte for byte.
fn rooms() {
    let trip = trip_f(65535);
    let lost = Trip { last: 3, ..trip };
    let largest = Trip::from(LARGEST);
    let trials = [
        (trip, 0),
        (trip, 23),
        (trip, 25),
        (lost, 23),
        (lost, 24),
        (trip, 24),
        (largest, 24),
    ];
    for (trip, bytes) in trials {
        let mut room = [0xEE; 25];
        let written = Written(records::write(trip, &mut room[..bytes]));
        say(format_args!("{written}:{}", Hex(&room[..bytes])));
    }
}

// 2,730 records, from serial 64,000 on: the step from 65,535 to 0 comes after 1,536 of them.
fn long_file() {
    let mut file = [0; 65520];
    let mut due = 64000;
    for place in file.chunks_exact_mut(SIZE) {
        if let Ok(next) = records::write(trip_f(due), place) {
            due = next;
        }
    }
    let count = Counted(records::count(&file));
    say(format_args!("a long file: {count}"));
    for number in [1535, 1536] {
        say(Read(records::read(&file, number)));
    }
}

fn main() {
    values();
    serials();
    order();
    lengths();
    numbers();
    rooms();
    long_file();
}
