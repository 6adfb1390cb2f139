// The C interface: the library's calls with plain structs for their answers, as `include/crumbthistle.h` declares them. A slice is a
// pointer and a length in C. Every answer but that of reading a byte begins with its refusal. Between `usize` and `u64` it is `as`: there is no
// From.
#![tactic(auto)]

ghost use Rattle.std.specs.Prelude.{◌≡◌, [], ◌∷◌, length};
ghost use Rattle.refusal.specs.Refusal.{why_of};
ghost use Rattle.refusal.specs.Outcome.{mapped, outcome_of};
ghost use Rattle.pulse.specs.Pulse.{class_of, fixed, classes};
ghost use Rattle.byte.specs.Byte.{byte_at};
ghost use Rattle.block.specs.Block.{write_block};
ghost use Rattle.block.specs.Reading.{read_block};
ghost use Rattle.deck.specs.Calls.{lent, begin_deck, take_run, take_end, said_by, saying_of};
ghost use Rattle.header.specs.Header.{pack_header, unpack_header, shown_span};
ghost use Rattle.file.specs.File.{file, write_file};
ghost use Rattle.file.specs.Reading.{read_file};
ghost use Rattle.wear.specs.Walk.{step_from, tried_block};
ghost use Rattle.wear.specs.Report.{report_strip};
ghost use Rattle.tap.specs.Tap.{write_tap};
ghost use Rattle.tap.specs.Reading.{read_tap};
ghost use Rattle.capi.specs.Flat.{flat_refusal, flat_byte, flat_put, flat_block, told_struct, flat_told, lone_header, flat_file, flat_tap, flat_span};
ghost use Rattle.capi.specs.Flat.{totals_of, wear_of, flat_report, spot_of, walk_of, flat_tried, flat_step};
ghost use Rattle.capi.specs.Flat.{PutFlat, BlockFlat, FileFlat, TapFlat};

use block::{ByCause, Extent};
use byte::ByteRead;
use deck::{Deck, Said};
use file::Loaded;
use header::Fields;
use pulse::Thresholds;
use refusal::Refusal;
use tap::TapInfo;
use wear::{Spot, Totals, Trial, Tried};

// Why a call refuses: the number of the refusal, the block and the place; with refusal 6 also why the lost byte is bad in copy one and in copy
// two. All are 0 where it accepts; where it refuses, all numbers of the answer after the refusal are 0, but for those of a report and of a step.
#[repr(C)]
#[derive(Clone, Copy, Default)]
pub struct TapeRefusal {
    pub number: u32,
    pub block: u32,
    pub place: u64,
    pub cause_one: u32,
    pub cause_two: u32,
}

// What reading a byte answers: whether it is good, the value of a good one, and the cause of a bad one.
#[repr(C)]
#[derive(Clone, Copy, Default)]
pub struct TapeByte {
    pub good: u32,
    pub value: u32,
    pub cause: u32,
}

// What a writer answers: how many pulses or bytes were put.
#[repr(C)]
#[derive(Clone, Copy, Default)]
pub struct TapePut {
    pub refusal: TapeRefusal,
    pub count: u64,
}

// What the block reader answers: payload bytes, start, and the place after copy two.
#[repr(C)]
#[derive(Clone, Copy, Default)]
pub struct TapeBlock {
    pub refusal: TapeRefusal,
    pub n: u64,
    pub start: u64,
    pub end: u64,
}

// What the last call for a deck said: nothing yet (told 0), the answer as the block reader's (1), or that it was refused (2).
#[repr(C)]
#[derive(Clone, Copy, Default)]
pub struct TapeTold {
    pub refusal: TapeRefusal,
    pub told: u32,
    pub n: u64,
    pub start: u64,
    pub end: u64,
}

// What the file reader and unpacking a header answer: type, addresses, and the end of the data block. The kind is the type.
#[repr(C)]
#[derive(Clone, Copy, Default)]
pub struct TapeFile {
    pub refusal: TapeRefusal,
    pub kind: u32,
    pub start: u32,
    pub end: u32,
    pub stop: u64,
}

// What the TAP reader answers: version, and how many durations were put.
#[repr(C)]
#[derive(Clone, Copy, Default)]
pub struct TapeTap {
    pub refusal: TapeRefusal,
    pub version: u32,
    pub count: u64,
}

// What the shown name's call answers: the part of the lent header that holds it.
#[repr(C)]
#[derive(Clone, Copy, Default)]
pub struct TapeSpan {
    pub refusal: TapeRefusal,
    pub offset: u64,
    pub length: u64,
}

// Totals of the report: strips, the pulses of each class, the places taken from copy one, taken from copy two, and lost, and the bad bytes
// by their causes, which are an array of eleven numbers in C.
#[repr(C)]
#[derive(Clone, Copy)]
pub struct TapeWear {
    pub strips: u64,
    pub shorts: u64,
    pub mediums: u64,
    pub longs: u64,
    pub noises: u64,
    pub one: u64,
    pub two: u64,
    pub lost: u64,
    pub causes: ByCause,
}

// What the report answers: the totals with the strip added, or, where it refuses, as they were lent.
#[repr(C)]
#[derive(Clone, Copy)]
pub struct TapeReport {
    pub refusal: TapeRefusal,
    pub totals: TapeWear,
}

// Where a walk stands: the place from which the next start is looked for, and how many bytes the data block has that is tried there. With
// length 0 a header is tried.
#[repr(C)]
#[derive(Clone, Copy, Default)]
pub struct TapeWalk {
    pub from: u64,
    pub length: u64,
}

// What a step of a walk answers: whether a block was found, its payload bytes, start and end, its places taken from copy one, taken from copy
// two, and lost, its bad bytes by their causes, and where the walk goes on. A block that is found and refused has an end of 0; all its other
// numbers are told.
#[repr(C)]
#[derive(Clone, Copy, Default)]
pub struct TapeWalked {
    pub refusal: TapeRefusal,
    pub found: u32,
    pub n: u64,
    pub start: u64,
    pub end: u64,
    pub one: u64,
    pub two: u64,
    pub lost: u64,
    pub causes: ByCause,
    pub next: TapeWalk,
}

// ---- Bytes

#[unsafe(no_mangle)]
pub extern "C" fn tape_read_byte(pulses: &[u32], at: usize) -> TapeByte
    ensures { result ≡ flat_byte (byte_at (classes fixed pulses.now) at) }
{
    TapeByte::from(byte::byte_at(Thresholds::fixed(), pulses, at))
}

// ---- Blocks

#[unsafe(no_mangle)]
pub extern "C" fn tape_write_block(payload: &[u8], leader: u64, out: &mut [u32]) -> TapePut
    ensures { PutFlat (write_block (length out.old) leader payload.now) out.old result out.new }
{
    TapePut::from(block::write_block(payload, leader as usize, out))
}

#[unsafe(no_mangle)]
pub extern "C" fn tape_read_block(
    pulses: &[u32],
    from: usize,
    n: usize,
    out: &mut [u8],
) -> TapeBlock
    ensures { BlockFlat (read_block (classes fixed pulses.now) (length out.old) from n) out.old result out.new }
{
    TapeBlock::from(block::read_block(pulses, from, n, out))
}

// ---- Straight from the deck

#[unsafe(no_mangle)]
pub extern "C" fn tape_deck_begin(n: usize, working: usize, room: usize) -> Deck
    ensures { result ≡ begin_deck n working room }
{
    Deck::begin(n, working, room)
}

#[unsafe(no_mangle)]
pub extern "C" fn tape_deck_pulse(deck: Deck, pulse: u32, work: &mut [u8], out: &mut [u8]) -> Deck
    ensures { lent result work.new out.new ≡ take_run (lent deck work.old out.old) (class_of fixed pulse ∷ []) }
{
    deck.pulse(pulse, work, out)
}

#[unsafe(no_mangle)]
pub extern "C" fn tape_deck_pulses(
    deck: Deck,
    pulses: &[u32],
    work: &mut [u8],
    out: &mut [u8],
) -> Deck
    ensures { lent result work.new out.new ≡ take_run (lent deck work.old out.old) (classes fixed pulses.now) }
{
    deck.pulses(pulses, work, out)
}

#[unsafe(no_mangle)]
pub extern "C" fn tape_deck_end(deck: Deck, work: &mut [u8], out: &mut [u8]) -> Deck
    ensures { lent result work.new out.new ≡ take_end (lent deck work.old out.old) }
{
    deck.end(work, out)
}

#[unsafe(no_mangle)]
pub extern "C" fn tape_deck_said(deck: Deck) -> TapeTold
    ensures { result ≡ flat_told (said_by deck) }
{
    TapeTold::from(deck.said())
}

// ---- Program files

#[unsafe(no_mangle)]
pub extern "C" fn tape_write_file(
    kind: u8,
    start: u16,
    end: u16,
    name: &[u8],
    bytes: &[u8],
    leader0: u64,
    leader1: u64,
    out: &mut [u32],
) -> TapePut
    ensures { PutFlat (write_file (length out.old) (file (record { kind = kind; start = start; end = end }) name.now bytes.now leader0 leader1))
        out.old result out.new }
{
    let fields = Fields { kind, start, end };
    TapePut::from(file::write_file(fields, name, bytes, leader0 as usize, leader1 as usize, out))
}

#[unsafe(no_mangle)]
pub extern "C" fn tape_read_file(
    pulses: &[u32],
    from: usize,
    header: &mut [u8],
    bytes: &mut [u8],
) -> TapeFile
    ensures { FileFlat (read_file (classes fixed pulses.now) (length header.old) (length bytes.old) from)
        header.old bytes.old result header.new bytes.new }
{
    TapeFile::from(file::read_file(pulses, from, header, bytes))
}

// ---- Headers

#[unsafe(no_mangle)]
pub extern "C" fn tape_pack_header(
    kind: u8,
    start: u16,
    end: u16,
    name: &[u8],
    out: &mut [u8],
) -> TapePut
    ensures { PutFlat (pack_header (length out.old) (record { kind = kind; start = start; end = end }) name.now) out.old result out.new }
{
    TapePut::from(header::pack_header(Fields { kind, start, end }, name, out))
}

// A lone header has no data block, and its stop is 0.
#[unsafe(no_mangle)]
pub extern "C" fn tape_unpack_header(header: &[u8]) -> TapeFile
    ensures { result ≡ flat_file (mapped lone_header (unpack_header header.now)) }
{
    // By `map` of the answer the fields go over the stack, and the call takes twice as long.
    match header::unpack_header(header) {
        Ok(fields) => TapeFile::from(Ok(Loaded { fields, stop: 0 })),
        Err(why) => TapeFile::from(Err(why)),
    }
}

// A refusal has no span, so it has an arm of its own, as in the conversions below.
#[unsafe(no_mangle)]
pub extern "C" fn tape_shown_name(header: &[u8]) -> TapeSpan
    ensures { result ≡ flat_span (shown_span header.now) }
{
    match header::unpack_header(header) {
        Ok(_) => TapeSpan {
            refusal: TapeRefusal::default(),
            offset: header::NAME_AT as u64,
            length: header::shown_name(header).len() as u64,
        },
        Err(refusal) => TapeSpan {
            refusal: TapeRefusal::from(refusal),
            ..TapeSpan::default()
        },
    }
}

// ---- TAP files

#[unsafe(no_mangle)]
pub extern "C" fn tape_write_tap(durations: &[u32], version: u8, out: &mut [u8]) -> TapePut
    ensures { PutFlat (write_tap (length out.old) version durations.now) out.old result out.new }
{
    TapePut::from(tap::write_tap(durations, version, out))
}

#[unsafe(no_mangle)]
pub extern "C" fn tape_read_tap(tape: &[u8], out: &mut [u32]) -> TapeTap
    ensures { TapFlat (read_tap (length out.old) tape.now) out.old result out.new }
{
    TapeTap::from(tap::read_tap(tape, out))
}

// ---- How worn strips are

// The totals are handed back as they were lent where the report refuses.
#[unsafe(no_mangle)]
pub extern "C" fn tape_report_strip(totals: TapeWear, pulses: &[u32]) -> TapeReport
    ensures { result ≡ flat_report totals (report_strip (totals_of totals) (classes fixed pulses.now)) }
{
    match wear::report(Totals::from(totals), pulses) {
        Ok(sums) => TapeReport {
            refusal: TapeRefusal::default(),
            totals: TapeWear::from(sums),
        },
        Err(why) => TapeReport {
            refusal: TapeRefusal::from(why),
            totals,
        },
    }
}

// Where no block is found, the walk goes on from where it stood.
#[unsafe(no_mangle)]
pub extern "C" fn tape_walk_block(pulses: &[u32], at: TapeWalk) -> TapeWalked
    ensures { result ≡ flat_step at (step_from (classes fixed pulses.now) (spot_of at)) }
{
    match wear::step_from(pulses, Spot::from(at)) {
        Ok(tried) => TapeWalked::from(tried),
        Err(why) => TapeWalked {
            refusal: TapeRefusal::from(why),
            next: at,
            ..TapeWalked::default()
        },
    }
}

// ---- Answers as plain structs. Each has an arm for a refusal: one function for all would need two impls for each struct, and be no plainer.

impl From<ByteRead> for TapeByte {
    ghost from_gives = { λ read byte. byte ≡ flat_byte read };

    fn from(read: ByteRead) -> TapeByte {
        match read {
            ByteRead::Good(value) => TapeByte {
                good: 1,
                value: u32::from(value),
                ..TapeByte::default()
            },
            ByteRead::Bad(cause) => TapeByte {
                cause: u32::from(cause),
                ..TapeByte::default()
            },
        }
    }
}

impl From<Result<usize, Refusal>> for TapePut {
    ghost from_gives = { λ answer put. put ≡ flat_put (outcome_of answer) };

    fn from(answer: Result<usize, Refusal>) -> TapePut {
        match answer {
            Ok(n) => TapePut {
                refusal: TapeRefusal::default(),
                count: n as u64,
            },
            Err(why) => TapePut {
                refusal: TapeRefusal::from(why),
                ..TapePut::default()
            },
        }
    }
}

impl From<Result<Extent, Refusal>> for TapeBlock {
    ghost from_gives = { λ answer block. block ≡ flat_block (outcome_of answer) };

    fn from(answer: Result<Extent, Refusal>) -> TapeBlock {
        match answer {
            Ok(e) => TapeBlock {
                refusal: TapeRefusal::default(),
                n: e.n as u64,
                start: e.start as u64,
                end: e.end as u64,
            },
            Err(why) => TapeBlock {
                refusal: TapeRefusal::from(why),
                ..TapeBlock::default()
            },
        }
    }
}

// Over a TapeBlock, which has an arm for each case of an answer.
impl From<Said> for TapeTold {
    ghost from_gives = { λ said told. told ≡ flat_told (saying_of said) };

    fn from(said: Said) -> TapeTold {
        match said {
            Said::Nothing => TapeTold::default(),
            Said::Answer(answer) => told_of(1, TapeBlock::from(answer)),
            Said::Refused(why) => told_of(2, TapeBlock::from(Err(why))),
        }
    }
}

// No From: it takes the number told too.
fn told_of(told: u32, block: TapeBlock) -> TapeTold
    ensures { result ≡ told_struct told block }
{
    TapeTold {
        refusal: block.refusal,
        told,
        n: block.n,
        start: block.start,
        end: block.end,
    }
}

impl From<Result<Loaded, Refusal>> for TapeFile {
    ghost from_gives = { λ answer file. file ≡ flat_file (outcome_of answer) };

    fn from(answer: Result<Loaded, Refusal>) -> TapeFile {
        match answer {
            Ok(loaded) => {
                let fields = loaded.fields;
                TapeFile {
                    refusal: TapeRefusal::default(),
                    kind: u32::from(fields.kind),
                    start: u32::from(fields.start),
                    end: u32::from(fields.end),
                    stop: loaded.stop as u64,
                }
            }
            Err(why) => TapeFile {
                refusal: TapeRefusal::from(why),
                ..TapeFile::default()
            },
        }
    }
}

impl From<Result<TapInfo, Refusal>> for TapeTap {
    ghost from_gives = { λ answer tape. tape ≡ flat_tap (outcome_of answer) };

    fn from(answer: Result<TapInfo, Refusal>) -> TapeTap {
        match answer {
            Ok(info) => TapeTap {
                refusal: TapeRefusal::default(),
                version: u32::from(info.version),
                count: info.count as u64,
            },
            Err(why) => TapeTap {
                refusal: TapeRefusal::from(why),
                ..TapeTap::default()
            },
        }
    }
}

impl From<Refusal> for TapeRefusal {
    ghost from_gives = { λ refusal flat. flat ≡ flat_refusal (why_of refusal) };

    fn from(refusal: Refusal) -> TapeRefusal {
        let reason = refusal.reason;
        let causes = reason.causes();
        TapeRefusal {
            number: u32::from(reason),
            block: refusal.block,
            place: refusal.place as u64,
            cause_one: u32::from(causes.one),
            cause_two: u32::from(causes.two),
        }
    }
}

// ---- Totals and places. C's structs have the fields that the header for C states, so each is handed on by its name.

impl From<TapeWear> for Totals {
    ghost from_gives = { λ wear totals. totals ≡ totals_of wear };

    fn from(wear: TapeWear) -> Totals {
        Totals {
            strips: wear.strips,
            shorts: wear.shorts,
            mediums: wear.mediums,
            longs: wear.longs,
            noises: wear.noises,
            one: wear.one,
            two: wear.two,
            lost: wear.lost,
            bad: wear.causes,
        }
    }
}

impl From<Totals> for TapeWear {
    ghost from_gives = { λ totals wear. wear ≡ wear_of totals };

    fn from(totals: Totals) -> TapeWear {
        TapeWear {
            strips: totals.strips,
            shorts: totals.shorts,
            mediums: totals.mediums,
            longs: totals.longs,
            noises: totals.noises,
            one: totals.one,
            two: totals.two,
            lost: totals.lost,
            causes: totals.bad,
        }
    }
}

// The length 0 stands for a header.
impl From<TapeWalk> for Spot {
    ghost from_gives = { λ walk spot. spot ≡ spot_of walk };

    fn from(walk: TapeWalk) -> Spot {
        let length = walk.length;
        let trial = if length == 0 {
            Trial::Header
        } else {
            Trial::Data(length as usize)
        };
        Spot {
            from: walk.from as usize,
            trial,
        }
    }
}

impl From<Spot> for TapeWalk {
    ghost from_gives = { λ spot walk. walk ≡ walk_of spot };

    fn from(spot: Spot) -> TapeWalk {
        let length = match spot.trial {
            Trial::Header => 0,
            Trial::Data(n) => n as u64,
        };
        TapeWalk {
            from: spot.from as u64,
            length,
        }
    }
}

impl From<Tried> for TapeWalked {
    ghost from_gives = { λ tried walked. walked ≡ flat_tried (tried_block tried) };

    fn from(tried: Tried) -> TapeWalked {
        let tally = tried.tally;
        let block = TapeBlock::from(tried.answer);
        TapeWalked {
            refusal: block.refusal,
            found: 1,
            n: tried.n as u64,
            start: tried.start as u64,
            end: block.end,
            one: tally.one as u64,
            two: tally.two as u64,
            lost: tally.lost as u64,
            causes: tally.bad,
            next: TapeWalk::from(tried.next),
        }
    }
}
