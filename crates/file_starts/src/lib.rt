// Where the records of a file start.
#![tactic(auto)]

ghost use Rattle.std.specs.Prelude.{◌≡◌, ◌+◌, ◌*◌, ◌≤◌};
ghost use Rattle.method.specs.Table.{most_quarters};
ghost use Rattle.file_record.specs.Reader.{dy_bytes, move_start, shape_base, day_start};

use file_record::Shape;

// The bytes of a PF, of an MV, of an EV, and of a DY before its readings.
pub const PF_LENGTH: usize = 8;

pub const MV_LENGTH: usize = 6;

pub const EV_LENGTH: usize = 8;

pub const BEFORE_READINGS: usize = 6;

// The bytes of a DY that are not readings.
pub const BESIDE_READINGS: usize = 6;

// The most MV, DY and EV of a file.
pub const MOST_MOVES: u8 = 16;

pub const MOST_DAYS: u32 = 128;

pub const MOST_EVENTS: u32 = 64;

// Where the k-th DY starts, counted from 0, the first standing at `base`; after the last DY, where the first EV does.
pub fn day_start(base: u32, first: u32, k: u32) -> usize
    ensures start { result ≡ day_start base first k }
    ensures most { result ≤ base + dy_bytes most_quarters * k }
{
    (base as usize) + BESIDE_READINGS * (k as usize) + 4 * day_ruler::offset(first, k)
}

// Where the k-th MV starts, counted from 0; after the last MV, where the first DY does.
pub fn move_start(k: u8) -> u32
    ensures { result ≡ move_start k }
{
    (PF_LENGTH + MV_LENGTH * (k as usize)) as u32
}

// Where the DY of a file of this shape start.
pub fn base(shape: Shape) -> u32
    ensures { result ≡ shape_base shape }
{
    move_start(shape.moves)
}
