// Rows of flags, eight to a byte. The reader has one for each group of places, raised where one of them is repaired.
ghost use Rattle.std.specs.Prelude.{◌≡◌};
ghost use Rattle.block.specs.private.Flags.{flag_at, raised};

const BYTE_FLAGS: usize = 8;

// How many places a group has.
pub const GROUP_PLACES: usize = 16;

// A flag for each group of the largest payload. The checksum's group has none there: its flag is never asked for.
pub const ROW_BYTES: usize = super::MOST_BYTES / (GROUP_PLACES * BYTE_FLAGS);

// Whether a flag of a row is raised; past the row's end none is.
pub fn flag(row: &[u8], i: usize) -> bool
    ensures { result ≡ flag_at row.now i }
{
    let Some(byte) = row.get(i / BYTE_FLAGS) else {
        return false;
    };
    (*byte >> (i % BYTE_FLAGS)) % 2 == 1
}

// Raises a flag of a row; past the row's end there is none to raise.
pub fn raise_flag(row: &mut [u8], i: usize)
    ensures { row.new ≡ raised row.old i }
{
    // With `get_mut` the proof did not close: the row after it has no name there.
    let at = i / BYTE_FLAGS;
    if row.len() <= at {
        return;
    }
    row[at] |= 1 << (i % BYTE_FLAGS);
}
