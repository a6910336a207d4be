// The first line of a listing. 01: "Header: number, P, F, h." and "A refused file prints only `file refused OFFSET`."
#![tactic(auto)]

ghost use Rattle.std.specs.Prelude.{◌≡◌, ◌+◌, ◌≤◌, length};
ghost use Rattle.base_text.specs.TextSteps.{Keeps};
ghost use Rattle.listing_lines.specs.Lines.{line_text};
ghost use Rattle.listing_lines.specs.Listing.{header_line, offset_of};
ghost use Rattle.listing_lines.specs.WriteSteps.{opening_line};
ghost use Rattle.listing_lines.specs.WriteSteps.{Writes, PutsWithin};
ghost use Rattle.listing_first_line.specs.Room.{opening_room};

use base_text::Text;
use file_record::Shape;
use method::Refusal;

// The room that the line is given.
pub const OPENING_ROOM: usize = 74;

fn put_header(text: &mut Text<'_>, file: Shape)
    requires { text.old.at + opening_room ≤ length text.old.out.now }
    ensures keeps { Keeps text.old text.new }
    ensures writes { Writes text.old.out.now text.old.at (line_text (header_line file)) text.new.at text.new.out.now }
    ensures most { text.new.at ≤ text.old.at + opening_room }
{
    text.put_field(b"portfolio ", file.portfolio);
    text.put_field(b" from ", file.participation);
    text.put_field(b" held ", file.first);
    text.put_field(b" ", file.days);
    text.put_bytes(b"\n");
}

// The offset at which a file is refused, by 11 alone.
#[tactic(auto, unfolding(listing_lines::specs::Listing::offset_of))]
fn offset_of(refusal: Refusal) -> u32
    ensures { result ≡ offset_of refusal }
{
    match refusal {
        Refusal::BadFile(offset) => offset,
        _ => 0,
    }
}

fn put_opening(text: &mut Text<'_>, read: Result<Shape, Refusal>)
    requires { text.old.at + opening_room ≤ length text.old.out.now }
    ensures keeps { Keeps text.old text.new }
    ensures writes { Writes text.old.out.now text.old.at (line_text (opening_line read)) text.new.at text.new.out.now }
    ensures most { text.new.at ≤ text.old.at + opening_room }
{
    match read {
        Ok(file) => put_header(text, file),
        Err(refusal) => {
            text.put_field(b"file refused ", offset_of(refusal));
            text.put_bytes(b"\n");
        }
    }
}

// The first line of a file's listing, from what reading the file gives, at the start of the buffer.
pub fn opening(read: Result<Shape, Refusal>, out: &mut [u8]) -> usize
    ensures { PutsWithin opening_room out.old 0 (line_text (opening_line read)) result out.new }
{
    if out.len() < OPENING_ROOM {
        return 0;
    }
    let mut text = Text { out, at: 0 };
    put_opening(&mut text, read);
    text.at
}
