// What the program says beside a listing: its help, its version and, on standard error, what failed.
use std::io;

// Prints a text; where that fails, says so.
pub(crate) fn print(rt: &HostRuntime, text: &[u8]) {
    if let Err(error) = rt.write_all(text) {
        failed(rt, b"standard output", error);
    }
}

pub(crate) fn version(rt: &HostRuntime) {
    print(rt, b"honeyplank-list 0.7.0\n");
}

pub(crate) fn help(rt: &HostRuntime) {
    print(
        rt,
        b"\
Usage: honeyplank-list [FILE]
Lists a record file: the demand response baseline of each of its events, by the
methodology of the Greek transmission operator: High X of Y (version 1.0, May
2020), or Average X of Y of day-ahead trades (version 5.0), as the event says.

FILE is the file's name. With none, or with -, standard input is read.

  -h, --help     print this help
  -V, --version  print the version
  --             end the options: what follows is FILE, even if it starts with -

The lines of a listing:

  portfolio 77 from 6900 held 6951 22
      its number, the first day of participation, the first day held, how many
  6972 152 156 days 2 6951 6965 reach 21 over 24 adj 264
      an event: day, start, end; how many days were chosen, and which; how many
      days before the event were needed; the denominator; the adjustment
  152 30348 1265
      a quarter of that event: its place, the numerator, rounded kW
  6966 152 156 refused 8 42
      an event refused: the refusal's number, and what it carries
  file refused 398
      no record file: the byte at which a record is not as laid down

Day 0 is 1 January 2000. Places 0 to 95 are the quarters of the day before the
event, 96 to 191 those of its own day.

Where opening, reading or writing fails, one line on standard error says so.
Nothing is printed where reading fails; a write that fails may have printed a
part. The exit status is 0 then too, because the program's language has none:
to know whether it failed, see whether it left standard error empty.
",
    );
}

// Where standard error can't be written, there is nowhere to say it.
fn complain(rt: &HostRuntime, text: &[u8]) {
    let _ = rt.stderr().write_all(text);
}

// Opens a message by what it is about; an empty name shows as ''.
fn about(rt: &HostRuntime, name: &[u8]) {
    complain(rt, b"honeyplank-list: ");
    if name.len() == 0 {
        complain(rt, b"''");
    } else {
        complain(rt, name);
    }
}

// A call failed on this, for a reason that is told in the system's words, without their number.
pub(crate) fn failed(rt: &HostRuntime, name: &[u8], error: io::Error) {
    about(rt, name);
    complain(rt, b": ");
    match error.to_string(rt.alloc()) {
        Ok(text) => {
            let text = text.as_str();
            let reason = text
                .split_once(" (os error ")
                .map_or(text, |(reason, _)| reason);
            complain(rt, reason.as_bytes());
        }
        Err(_) => complain(rt, b"out of memory"),
    }
    complain(rt, b"\n");
}

// A word of the command line is refused.
pub(crate) fn refused(rt: &HostRuntime, word: &[u8], why: &[u8]) {
    about(rt, word);
    complain(rt, why);
    complain(rt, b" (see honeyplank-list --help)\n");
}

// Standard input is a terminal, whose user may not know that the program waits.
pub(crate) fn hint(rt: &HostRuntime) {
    complain(
        rt,
        b"honeyplank-list: reads a record file from this terminal; Ctrl-D ends it (see honeyplank-list --help)\n",
    );
}
