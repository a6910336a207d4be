// Reads the start of a file, or of standard input.
ghost use Rattle.std.specs.Prelude.{◌≤◌, length, IfOk, IfSome};

use crate::{named, say};
use program_words::Wanted;
use std::fs::File;
use std::io::{IsTerminal, Read};
use std::rt::Files;
use std::{io, str};

// The system's EILSEQ: bytes that are no text. std opens a file by a name in UTF-8 alone.
const NO_TEXT: i32 = 84;

// Fills the bytes from their start, as far as the input goes: how many were read. std's own ways to an input's end want a `Vec`, or end in an error
// where it is shorter than the bytes.
fn fill<R: Read>(input: &mut R, bytes: &mut [u8]) -> io::Result<usize>
    ensures { IfOk result (λ count. count ≤ length bytes.new) }
{
    let mut done = 0;
    while done < bytes.len() {
        let more = input.read(&mut bytes[done..])?;
        if more == 0 {
            break;
        }
        done += more;
    }
    Ok(done)
}

// The same; where it fails, says so of the name.
fn fill_from<R: Read>(
    rt: &HostRuntime,
    input: &mut R,
    name: &[u8],
    bytes: &mut [u8],
) -> Option<usize>
    ensures { IfSome result (λ count. count ≤ length bytes.new) }
{
    match fill(input, bytes) {
        Ok(count) => Some(count),
        Err(error) => {
            say::failed(rt, name, error);
            None
        }
    }
}

fn read_input(rt: &HostRuntime, bytes: &mut [u8]) -> Option<usize>
    ensures { IfSome result (λ count. count ≤ length bytes.new) }
{
    let mut input = rt.stdin();
    if input.is_terminal() {
        say::hint(rt);
    }
    fill_from(rt, &mut input, b"standard input", bytes)
}

fn open<R: Files>(rt: &R, name: &[u8]) -> io::Result<R::File> {
    match str::from_utf8(name) {
        Ok(name) => File::open(rt, name),
        Err(_) => Err(io::Error::from_raw_os_error(NO_TEXT)),
    }
}

// Reads the file that the word at a place names, which is put into the room.
fn read_file(rt: &HostRuntime, place: usize, room: &mut [u8], bytes: &mut [u8]) -> Option<usize>
    ensures { IfSome result (λ count. count ≤ length bytes.new) }
{
    let name = named(rt, place, room);
    match open(rt, name) {
        Ok(mut file) => fill_from(rt, &mut file, name, bytes),
        Err(error) => {
            say::failed(rt, name, error);
            None
        }
    }
}

// Reads the file that is wanted, or standard input: how many bytes were read, to the end or to the buffer's. Where it failed, that is said.
pub(crate) fn read(
    rt: &HostRuntime,
    wanted: Wanted,
    room: &mut [u8],
    bytes: &mut [u8],
) -> Option<usize>
    ensures { IfSome result (λ count. count ≤ length bytes.new) }
{
    match wanted {
        Wanted::File(place) => read_file(rt, place, room, bytes),
        _ => read_input(rt, bytes),
    }
}
