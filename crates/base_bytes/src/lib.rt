// Numbers as bytes, the lowest first: put first into a lent buffer, four each, where all of them fit.
#![tactic(auto)]

ghost use Rattle.std.specs.Prelude.{◌≡◌};
ghost use Rattle.base_bytes.specs.PutFirst.{put_first};
ghost use Rattle.base_bytes.specs.Bytes.{reading_bytes};

use byteorder::{ByteOrder, LittleEndian};

// Numbers of four bytes: they stand first where all of them fit, and else nothing is changed.
pub fn put_numbers(out: &mut [u8], numbers: &[u32])
    ensures { out.new ≡ put_first (reading_bytes numbers.now) out.old }
{
    if out.len() / 4 < numbers.len() {
        return;
    }
    LittleEndian::write_u32_into(numbers, &mut out[..4 * numbers.len()]);
}
