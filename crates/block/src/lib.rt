// Blocks. A block carries n payload bytes, 1 to 8,192, and is recorded twice.
//
//   leader          copy one                       trailer     copy two                       trailer
//   K short pulses  $89 .. $81, payload, checksum  L and 60 S  $09 .. $01, payload, checksum  L and 60 S
//
// The checksum is $00 XORed with each payload byte. A copy has n + 10 byte places of twenty pulses each.
#![tactic(auto)]

mod copies;
mod flags;
mod looking;
mod places;
mod rules;
mod values;
mod write;

ghost use Rattle.std.specs.Prelude.{◌≡◌, length, get_or};
ghost use Rattle.refusal.specs.Outcome.{outcome_of};
ghost use Rattle.refusal.specs.Promise.{Written};
ghost use Rattle.pulse.specs.Pulse.{fixed, classes};
ghost use Rattle.block.specs.Block.{wrong_size, wrong_leader, measure_block, write_block};
ghost use Rattle.start.specs.Start.{find_start, start_at};
ghost use Rattle.byte.specs.declared.ByteRead.TheVariants.{Bad};
ghost use Rattle.block.specs.Reading.{place_of, place_value, read_block, BlockPromise};
ghost use Rattle.block.specs.Looking.{each_cause, cause_numbers, copies_at, look_at, look_answer, place_read, read_place, place_answer};

use byte::{ByteRead, CAUSES};
use copies::BothCopies;
use pulse::Thresholds;
use refusal::{Causes, Reason, Refusal};
use start::Copies;

// The largest payload.
pub const MOST_BYTES: usize = 8192;

pub const LEAST_LEADER: usize = 64;

pub const MOST_LEADER: usize = 65535;

// The countdown of copy one, and that of copy two. Byte by byte, as document 01 has them: by sums from `start::FIRST_OF_ONE` they would be no
// plainer.
const COUNTDOWNS: [[u8; start::COUNTDOWN_BYTES]; 2] = [
    [0x89, 0x88, 0x87, 0x86, 0x85, 0x84, 0x83, 0x82, 0x81],
    [0x09, 0x08, 0x07, 0x06, 0x05, 0x04, 0x03, 0x02, 0x01],
];

// Where an accepted block stands: its payload bytes, its start, and the place after copy two.
#[derive(Clone, Copy)]
pub struct Extent {
    pub n: usize,
    pub start: usize,
    pub end: usize,
}

// How many bytes are bad by each cause: by the marker, by one of the eight bits, by the parity bit, and by the number of ones. They stand in
// the order of their numbers, for C too; no contract sees that order, the tests do.
#[repr(C)]
#[derive(Clone, Copy, Default)]
pub struct ByCause {
    pub marker: u64,
    pub bit0: u64,
    pub bit1: u64,
    pub bit2: u64,
    pub bit3: u64,
    pub bit4: u64,
    pub bit5: u64,
    pub bit6: u64,
    pub bit7: u64,
    pub parity: u64,
    pub ones: u64,
}

// The counts in the order of the causes' numbers, and each by its cause.
impl From<[u64; CAUSES]> for ByCause {
    ghost from_gives = { λ counts bad. bad ≡ each_cause (λ cause. get_or counts cause 0) };

    fn from(counts: [u64; CAUSES]) -> ByCause {
        let [
            marker,
            bit0,
            bit1,
            bit2,
            bit3,
            bit4,
            bit5,
            bit6,
            bit7,
            parity,
            ones,
        ] = counts;
        ByCause {
            marker,
            bit0,
            bit1,
            bit2,
            bit3,
            bit4,
            bit5,
            bit6,
            bit7,
            parity,
            ones,
        }
    }
}

impl From<ByCause> for [u64; CAUSES] {
    ghost from_gives = { λ bad counts. counts ≡ cause_numbers bad };

    fn from(bad: ByCause) -> [u64; CAUSES] {
        let counts: [u64; CAUSES] = [
            bad.marker, bad.bit0, bad.bit1, bad.bit2, bad.bit3, bad.bit4, bad.bit5, bad.bit6,
            bad.bit7, bad.parity, bad.ones,
        ];
        counts
    }
}

// How many of the places 0 to n of a block, the checksum's among them, are taken from copy one, are taken from copy two, and are lost; and how
// many bytes of both copies at these places are bad, by their causes.
#[derive(Clone, Copy, Default)]
pub struct Tally {
    pub one: usize,
    pub two: usize,
    pub lost: usize,
    pub bad: ByCause,
}

// What looking at a block tells: what the block reader would answer, where the values come from, and the bad bytes.
#[derive(Clone, Copy)]
pub struct Look {
    pub answer: Result<Extent, Refusal>,
    pub tally: Tally,
}

// What rule 4 says of a place: its value is copy one's, or it is copy two's, or it is lost, for these causes.
#[derive(Clone, Copy)]
pub enum PlaceRead {
    One(u8),
    Two(u8),
    Neither(Causes),
}

impl PlaceRead {
    // Rule 4 for the bytes of both copies: copy one's value where that byte is good, else copy two's.
    pub fn of(one: ByteRead, two: ByteRead) -> PlaceRead
        ensures { place_read result ≡ place_of one two }
    {
        match one {
            ByteRead::Good(value) => PlaceRead::One(value),
            ByteRead::Bad(cause) => PlaceRead::of_two(cause, two),
        }
    }

    // The same where copy one's byte is bad. Two functions: one match in the other takes more stack in the deck.
    fn of_two(one: u8, two: ByteRead) -> PlaceRead
        ensures { place_read result ≡ place_of (Bad one) two }
    {
        match two {
            ByteRead::Good(value) => PlaceRead::Two(value),
            ByteRead::Bad(two) => PlaceRead::Neither(Causes { one, two }),
        }
    }

    // The value. Where the place is lost it is 0, as the definition has it.
    pub fn value(self) -> u8
        ensures { result ≡ place_value (place_read self) }
    {
        match self {
            PlaceRead::One(value) | PlaceRead::Two(value) => value,
            PlaceRead::Neither(_) => 0,
        }
    }
}

// The number of pulses that a block of n payload bytes takes, with a leader of that many. It refuses a payload or a leader of a wrong
// size, as `write_block` does.
pub fn measure_block(n: usize, leader: usize) -> Result<usize, Refusal>
    ensures { outcome_of result ≡ measure_block leader n }
{
    if wrong_size(n) {
        return Err(Reason::WrongSize.into());
    }
    if wrong_leader(leader) {
        return Err(Reason::WrongLeader.into());
    }
    Ok(leader + 2 * (byte::BYTE_PULSES * (n + start::EXTRA_BYTES) + start::TRAILER_PULSES))
}

// Writes a block with a leader of that many short pulses, and answers the number of pulses put. It refuses a payload or a leader of
// a wrong size and an output that is too short.
pub fn write_block(payload: &[u8], leader: usize, out: &mut [u32]) -> Result<usize, Refusal>
    ensures { Written (write_block (length out.old) leader payload.now) out.old result out.new }
{
    let count = measure_block(payload.len(), leader)?;
    if out.len() < count {
        return Err(Reason::NoRoom.into());
    }
    write::put_block(payload, leader, out);
    Ok(count)
}

// Reads the block of n payload bytes whose start is the first at or after `from`, and puts its payload. It refuses a wrong n, an output
// that is too short, a strip with no start, and a block that is cut short or damaged beyond repair.
pub fn read_block(strip: &[u32], from: usize, n: usize, out: &mut [u8]) -> Result<Extent, Refusal>
    ensures { BlockPromise (read_block (classes fixed strip.now) (length out.old) from n) out.old result out.new }
{
    if wrong_size(n) {
        return Err(Reason::WrongSize.into());
    }
    if out.len() < n {
        return Err(Reason::NoRoom.into());
    }
    let start = start_from(strip, from).ok_or(Reason::NoStart)?;
    rules::read_at(Thresholds::fixed(), strip, start, n, out)
}

// The first start at or after `from`.
pub fn start_from(strip: &[u32], from: usize) -> Option<usize>
    ensures { start_at result ≡ find_start (classes fixed strip.now) from }
{
    start::find_start(Thresholds::fixed(), strip, from)
}

// Looks at the block of n payload bytes with this start: rules 2 to 5, with every place counted. It refuses a wrong n, and a block that is cut
// short or damaged beyond repair. Nothing is counted of a wrong n, or where the block is cut short.
pub fn look_at(strip: &[u32], start: usize, n: usize) -> Look
    ensures { look_answer result ≡ look_at (classes fixed strip.now) start n }
{
    match copies_at(strip.len(), start, n) {
        Err(r) => looking::refused(r),
        Ok(copies) => BothCopies::new(Thresholds::fixed(), strip, copies, n).look(),
    }
}

// Place i of such a block, by rule 4: a payload byte, or the checksum where i is n. It refuses a wrong n, an i above n, and a strip that ends
// before copy two does.
pub fn place_at(strip: &[u32], start: usize, n: usize, i: usize) -> Result<PlaceRead, Refusal>
    ensures { place_answer result ≡ read_place (classes fixed strip.now) start n i }
{
    if n < i {
        return Err(Reason::WrongSize.into());
    }
    let copies = copies_at(strip.len(), start, n)?;
    Ok(BothCopies::new(Thresholds::fixed(), strip, copies, n).read_place(i))
}

// Where the copies lie, on a strip of that many pulses. It refuses a wrong n and a strip that ends before copy two does.
fn copies_at(count: usize, start: usize, n: usize) -> Result<Copies, Refusal>
    ensures { outcome_of result ≡ copies_at count start n }
{
    if wrong_size(n) {
        return Err(Reason::WrongSize.into());
    }
    start::locate_copies(count, start, n)
}

// Whether no block has n payload bytes.
pub fn wrong_size(n: usize) -> bool
    ensures { result ≡ wrong_size n }
{
    (n == 0) | (MOST_BYTES < n)
}

fn wrong_leader(leader: usize) -> bool
    ensures { result ≡ wrong_leader leader }
{
    (leader < LEAST_LEADER) | (MOST_LEADER < leader)
}
