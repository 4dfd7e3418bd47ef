// Trip records: 24 bytes each, one after another, low byte first. Entries: write one, count a file's, read one by its number.
#![tactic(auto)]

ghost use Rattle.std.specs.Prelude.{◌≡◌, ◌+◌, ◌*◌, ◌/◌, ◌%◌, ◌≤◌, length};
ghost use Rattle.floor.specs.Floor.{refused};
ghost use Rattle.rules.specs.Record.{got, layout, trip_at, values_ok, record_ok, next_serial, count_refusal};
ghost use Rattle.records.specs.Promise.{WritePromise, CountPromise, ReadPromise};

use floor::Refusal;
use rules::Trip;

/// The length of a record.
pub const SIZE: usize = 24;

// Start, goal and last cell are below it, and lookahead and move limit are at most it.
const MOST: u16 = 4096;

const MOST_MOVES: u32 = 16769025;

const MOST_REQUIRED: u16 = 126;

/// A record as it stands in a file.
#[derive(Clone, Copy, Debug, PartialEq, Eq)]
pub struct Record(pub [u8; SIZE]);

impl Record {
    // The number in the two bytes from `at` on. (One function a width: `from_le_bytes` is no trait's function, so a generic one would
    // have to leave the call to its callers, which is no plainer.)
    fn u16_at(&self, at: usize) -> u16
        requires { at + 2 ≤ SIZE }
        ensures { result ≡ got self.now.0 at 2 }
    {
        u16::from_le_bytes([self.0[at], self.0[at + 1]])
    }

    // The number in the four bytes from `at` on.
    fn u32_at(&self, at: usize) -> u32
        requires { at + 4 ≤ SIZE }
        ensures { result ≡ got self.now.0 at 4 }
    {
        u32::from_le_bytes([self.0[at], self.0[at + 1], self.0[at + 2], self.0[at + 3]])
    }

    // Whether it keeps the rules, so that refusal 11 is not given.
    fn holds(&self) -> bool
        ensures { result ≡ record_ok self.now.0 0 }
    {
        values_hold(Trip::from(*self)) & (self.0[9] == 0) & (self.u16_at(22) == 0)
    }
}

impl From<Trip> for Record {
    ghost from_gives = { λ trip laid. laid.0 ≡ layout trip };

    fn from(trip: Trip) -> Record {
        let mut bytes = [0; SIZE];
        bytes[0..2].copy_from_slice(&trip.serial.to_le_bytes());
        bytes[2..4].copy_from_slice(&trip.cart.to_le_bytes());
        bytes[4..6].copy_from_slice(&trip.start.to_le_bytes());
        bytes[6..8].copy_from_slice(&trip.goal.to_le_bytes());
        bytes[8] = trip.ending;
        bytes[10..12].copy_from_slice(&trip.last.to_le_bytes());
        bytes[12..16].copy_from_slice(&trip.moves.to_le_bytes());
        bytes[16..18].copy_from_slice(&trip.required.to_le_bytes());
        bytes[18..20].copy_from_slice(&trip.look.to_le_bytes());
        bytes[20..22].copy_from_slice(&trip.limit.to_le_bytes());
        Record(bytes)
    }
}

impl From<Record> for Trip {
    ghost from_gives = { λ laid trip. trip ≡ trip_at laid.0 0 };

    fn from(record: Record) -> Trip {
        Trip {
            serial: record.u16_at(0),
            cart: record.u16_at(2),
            start: record.u16_at(4),
            goal: record.u16_at(6),
            ending: record.0[8],
            last: record.u16_at(10),
            moves: record.u32_at(12),
            required: record.u16_at(16),
            look: record.u16_at(18),
            limit: record.u16_at(20),
        }
    }
}

/// The serial after `serial`: after 65,535 comes 0.
pub fn next_serial(serial: u16) -> u16
    ensures { result ≡ next_serial serial }
{
    serial.wrapping_add(1)
}

/// Whether the values keep the rules. Ending 1 comes with the goal as last cell, and the goal with ending 1.
pub fn values_hold(trip: Trip) -> bool
    ensures { result ≡ values_ok trip }
{
    (1..=3).contains(&trip.ending)
        & (trip.start < MOST)
        & (trip.goal < MOST)
        & (trip.last < MOST)
        & ((trip.ending == 1) == (trip.last == trip.goal))
        & (trip.moves <= MOST_MOVES)
        & (trip.required <= MOST_REQUIRED)
        & (1..=MOST).contains(&trip.look)
        & (1..=MOST).contains(&trip.limit)
}

/// The values of the record that starts at `at`. (Its promise is about any place of a file, which no conversion can name.)
pub fn trip_at(bytes: &[u8], at: usize) -> Trip
    requires { at + SIZE ≤ length bytes.now }
    ensures { result ≡ trip_at bytes.now at }
{
    let record = bytes[at..at + SIZE].try_into().unwrap();
    Trip::from(Record(record))
}

// The refusal of a file: it goes record by record, 11 before 12 in each. The first record's serial may be any.
fn check(bytes: &[u8]) -> Result<(), Refusal>
    ensures { refused result ≡ count_refusal bytes.now }
{
    let (records, rest) = bytes.as_chunks::<SIZE>();
    if !rest.is_empty() {
        return Err(Refusal::RecordSize);
    }
    let mut due = None;
    for record in records {
        let record = Record(*record);
        if !record.holds() {
            return Err(Refusal::RecordValues);
        }
        let serial = record.u16_at(0);
        if serial != due.unwrap_or(serial) {
            return Err(Refusal::Serial);
        }
        due = Some(next_serial(serial));
    }
    Ok(())
}

/// Entry: writes one record into the room, and answers the serial of the next one. A refusal, 10 or 11, leaves the room as it was.
pub fn write(trip: Trip, room: &mut [u8]) -> Result<u16, Refusal>
    ensures { WritePromise trip room.old result room.new }
{
    if room.len() != SIZE {
        return Err(Refusal::RecordSize);
    }
    if !values_hold(trip) {
        return Err(Refusal::RecordValues);
    }
    room.copy_from_slice(&Record::from(trip).0);
    Ok(next_serial(trip.serial))
}

/// Entry: the number of records in a file, 0 for an empty one. Refusals: 10 to 12.
pub fn count(bytes: &[u8]) -> Result<usize, Refusal>
    ensures { CountPromise bytes.now result }
{
    check(bytes)?;
    Ok(bytes.len() / SIZE)
}

/// Entry: the record of that number, counted from 0, once the whole file has been tested. A number past the end is refused with 11.
pub fn read(bytes: &[u8], number: usize) -> Result<Trip, Refusal>
    ensures { ReadPromise bytes.now number result }
{
    check(bytes)?;
    let (records, _) = bytes.as_chunks();
    let record = records.get(number).ok_or(Refusal::RecordValues)?;
    Ok(Trip::from(Record(*record)))
}
