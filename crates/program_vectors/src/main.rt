// Writes what the project works out for vectors that were made outside it. The gate compares it with the file stdout, which
// tests/vectors/make_stdout.py made from the papers and knows nothing of this code.
#![tactic(auto)]

mod days;
mod parts;

use std::io;

fn main(rt: HostRuntime) -> io::Result<()> {
    days::groups(&rt)?;
    days::easters(&rt)?;
    days::table_3(&rt)?;
    parts::parts(&rt)
}
