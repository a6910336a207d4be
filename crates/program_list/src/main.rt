// The listing program: prints the listing of a record file (document 01, "Record file, listing, host entry"), read on standard input or by its name.
#![tactic(auto)]

mod reading;
mod say;

ghost use Rattle.std.specs.Prelude.{◌≤◌, ◌<◌, length};
ghost use Rattle.listing_lines.specs.Listing.{longest};
ghost use Rattle.listing_whole.specs.Lists.{most_listing};
ghost use Rattle.program_list.specs.Prints.{Prints};

use listing_whole::MOST_LISTING;
use program_words::{Line, Wanted, WrongUse};
use std::env::FillError;
use std::rt::Env;

// One byte more than the longest file that is as laid down: what comes after it changes no listing.
const MOST: usize = 50537;

// The listing of the input, of which so many bytes were read, at the start of the text: how long it is. It takes the
// whole buffer and the count, since what may follow those bytes hangs on whether they fill it (`Prints`).
fn list(bytes: &[u8], count: usize, text: &mut [u8]) -> usize
    requires { (count ≤ length bytes.now) × (longest < length bytes.now) × (most_listing ≤ length text.old) }
    ensures { Prints bytes.now count result text.new }
{
    match listing_whole::listing(&bytes[..count], text) {
        Ok(size) => size as usize,
        Err(_) => 0,
    }
}

// Prints the listing of the file that is wanted. Where it can't be read, that is said, and nothing is printed.
fn print_listing(rt: &HostRuntime, wanted: Wanted, text: &mut [u8])
    requires { most_listing ≤ length text.old }
{
    let mut bytes = [0u8; MOST];
    if let Some(count) = reading::read(rt, wanted, text, &mut bytes) {
        let end = list(&bytes, count, text);
        say::print(rt, &text[..end]);
    }
}

// The word at a place of the command line, which is put into the room; nothing after the last. One that is longer than the room counts as empty,
// and names no file.
fn word_at<'a>(env: &impl Env, place: usize, room: &'a mut [u8]) -> Option<&'a [u8]> {
    match env.arg(place, room) {
        Ok(size) => Some(&room[..size]),
        Err(FillError::TooLong) => Some(b""),
        Err(FillError::NotPresent) => None,
    }
}

// What the command line wants. The system keeps no count of its words: the range is there so that the loop is seen to end.
fn command_line(env: &impl Env, room: &mut [u8]) -> Result<Wanted, WrongUse> {
    let mut line = Line {
        wanted: Ok(Wanted::Nothing),
        ended: false,
    };
    for place in 1..usize::MAX {
        let Some(word) = word_at(env, place, room) else {
            break;
        };
        line = program_words::with_word(line, word, place);
    }
    line.wanted
}

// The word that was found at a place, once more: the room has had others since.
pub(crate) fn named<'a>(env: &impl Env, place: usize, room: &'a mut [u8]) -> &'a [u8] {
    word_at(env, place, room).unwrap_or(b"")
}

// One buffer has the words of the command line, a file's name and then the text, one after the other: that keeps the stack small.
fn main(rt: HostRuntime) {
    let mut text = [0u8; MOST_LISTING];
    match command_line(&rt, &mut text) {
        Ok(Wanted::Help) => say::help(&rt),
        Ok(Wanted::Version) => say::version(&rt),
        Ok(wanted) => print_listing(&rt, wanted, &mut text),
        Err(WrongUse::Unknown(place)) => say::refused(
            &rt,
            named(&rt, place, &mut text),
            b": unknown option",
        ),
        Err(WrongUse::Second(place)) => say::refused(
            &rt,
            named(&rt, place, &mut text),
            b": more than one file",
        ),
    }
}
