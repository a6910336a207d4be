// The moves of a record file (document 02, order 2): one of them, or the whole list in a lent buffer.
#![tactic(auto)]

ghost use Rattle.std.specs.Prelude.{◌≡◌, ◌*◌, ◌≤◌, ◌++◌, length, drop};
ghost use Rattle.file_record.specs.Reader.{mv_length, move_start, read_file, move_at_place};
ghost use Rattle.file_record.specs.Steps.{filled_if, list_within, move_within};
ghost use Rattle.file_moves.specs.Steps.{move_of, list_fits};

use byteorder::{ByteOrder, LittleEndian};
use file_record::{Move, Shape};
use file_starts::MV_LENGTH;
use method::Refusal;

// The move that an MV says.
fn move_of(mv: &[u8]) -> Move
    requires { mv_length ≤ length mv.now }
    ensures { result ≡ move_of mv.now }
{
    Move {
        old: u32::from(LittleEndian::read_u16(&mv[2..])),
        new: u32::from(LittleEndian::read_u16(&mv[4..])),
    }
}

// The move at a place, counted from 0: in a file of this shape.
pub fn move_within(file: &[u8], shape: Shape, place: usize) -> Option<Move>
    ensures { result ≡ move_within shape file.now place }
{
    if place >= shape.moves as usize {
        return None;
    }
    let at = file_starts::move_start(place as u8) as usize;
    let Some(mv) = file.get(at..at + MV_LENGTH) else {
        return None;
    };
    Some(move_of(mv))
}

// The move at a place of a file.
pub fn move_at(file: &[u8], place: usize) -> Result<Option<Move>, Refusal>
    ensures { result ≡ move_at_place (read_file file.now) file.now place }
{
    let shape = file_reading::read_file(file)?;
    Ok(move_within(file, shape, place))
}

// The numbers of the moves, put first. By their number: their place in the file and in the list are worked out from it, and of the elements that
// `chunks_exact_mut` gives nothing is known afterwards.
fn load(file: &[u8], shape: Shape, moves: &mut [u32])
    requires { (move_start shape.moves ≤ length file.now) × (2 * shape.moves ≤ length moves.old) }
    ensures { moves.new ≡ list_within shape file.now ++ drop (2 * shape.moves) moves.old }
{
    for k in 0..shape.moves {
        let at = file_starts::move_start(k) as usize;
        let said = move_of(&file[at..at + MV_LENGTH]);
        let place = 2 * (k as usize);
        moves[place] = said.old;
        moves[place + 1] = said.new;
    }
}

// Puts the list of moves of a file of this shape into a lent buffer, and says whether it fits: it stands first, the rest is kept. Where it does not fit
// nothing changes. A bool and no Result: `list_fits` is of every shape.
#[tactic(auto, unfolding(crate::specs::Steps::list_fits))]
pub fn load_list(file: &[u8], shape: Shape, moves: &mut [u32]) -> bool
    ensures said { result ≡ list_fits shape (length file.now) (length moves.old) }
    ensures held { moves.new ≡ filled_if result (list_within shape file.now) moves.old }
{
    let end = file_starts::base(shape) as usize;
    let fits = (end <= file.len()) & (2 * (shape.moves as usize) <= moves.len());
    if fits {
        load(file, shape, moves);
    }
    fits
}
