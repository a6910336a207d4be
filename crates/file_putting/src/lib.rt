// One record of a file put first into a lent buffer: a PF, an MV, a DY or an EV. Where it does not fit, nothing is changed.
#![tactic(auto)]

ghost use Rattle.std.specs.Prelude.{◌≡◌, ◌∷◌, ◌++◌, ◌≤◌, length, get_or, drop};
ghost use Rattle.base_bytes.specs.Bytes.{bytes};
ghost use Rattle.base_bytes.specs.PutFirst.{put_first};
ghost use Rattle.file_record.specs.Layout.{pf_record, mv_record, dy_record, ev_record};

use file_starts::{BEFORE_READINGS, EV_LENGTH, MV_LENGTH, PF_LENGTH};

// What every record opens with: its mark, and a number of two bytes. The mark is put letter by letter: this compiler's `copy_from_slice` of what
// may lie anywhere leaves a test in each record.
fn put_head(out: &mut [u8], mark: &[u8; 2], number: u32)
    requires { 4 ≤ length out.old }
    ensures { out.new ≡ (get_or mark.now 0 0 ∷ get_or mark.now 1 0 ∷ bytes 2 number) ++ drop 4 out.old }
{
    out[0] = mark[0];
    out[1] = mark[1];
    out[2..4].copy_from_slice(&number.to_le_bytes()[..2]);
}

// A PF.
pub fn put_opening(out: &mut [u8], participation: u32, portfolio: u32)
    ensures { out.new ≡ put_first (pf_record participation portfolio) out.old }
{
    if out.len() < PF_LENGTH {
        return;
    }
    put_head(out, b"PF", participation);
    base_bytes::put_numbers(&mut out[4..PF_LENGTH], &[portfolio]);
}

// An MV.
pub fn put_move(out: &mut [u8], old: u32, new: u32)
    ensures { out.new ≡ put_first (mv_record old new) out.old }
{
    if out.len() < MV_LENGTH {
        return;
    }
    put_head(out, b"MV", old);
    out[4..MV_LENGTH].copy_from_slice(&new.to_le_bytes()[..2]);
}

// The DY of a day.
pub fn put_day(out: &mut [u8], day: u32, mark: u8, readings: &[u32])
    ensures { out.new ≡ put_first (dy_record day mark readings.now) out.old }
{
    if out.len() < BEFORE_READINGS || (out.len() - BEFORE_READINGS) / 4 < readings.len() {
        return;
    }
    put_head(out, b"DY", day);
    out[4] = mark;
    out[5] = 0;
    let end = BEFORE_READINGS + 4 * readings.len();
    base_bytes::put_numbers(&mut out[BEFORE_READINGS..end], readings);
}

// An EV.
pub fn put_event(out: &mut [u8], day: u32, s: u8, e: u8, n: u8, method: u8)
    ensures { out.new ≡ put_first (ev_record (record { day = day; s = s; e = e; n = n; method = method })) out.old }
{
    if out.len() < EV_LENGTH {
        return;
    }
    put_head(out, b"EV", day);
    out[4] = s;
    out[5] = e;
    out[6] = n;
    out[7] = method;
}
