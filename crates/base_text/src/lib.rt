// The pieces that a text is written with. Each is put into the buffer whole or not at all, and the place goes on behind it; a place past the end says
// that something did not fit, and nothing is written there. How far that place can be is said too.
#![tactic(auto)]

ghost use Rattle.std.specs.Prelude.{◌≡◌, ◌≤◌, ◌+◌, length};
ghost use Rattle.base_digits.specs.Digits.{dec, decimal};
ghost use Rattle.base_text.specs.TextSteps.{Puts, PutsBoth, Keeps};

use itoa::Buffer;

// A text that is written into a lent buffer, and the place where it goes on.
#[derive(Drop)]
pub struct Text<'a> {
    pub out: &'a mut [u8],
    pub at: usize,
}

// The bytes into a part as long as they are. By a loop: `copy_from_slice` leaves a call of the system's memmove, which the archive does not ask for.
fn copy(part: &mut [u8], bytes: &[u8])
    requires { length part.old ≡ length bytes.now }
    ensures { part.new ≡ bytes.now }
{
    for (i, byte) in part.iter_mut().enumerate() {
        *byte = bytes[i];
    }
}

impl Text<'_> {
    // The bytes as they are.
    pub fn put_bytes(&mut self, bytes: &[u8])
        ensures keeps { Keeps self.old self.new }
        ensures puts { Puts self.old.out.now self.old.at bytes.now self.new.at self.new.out.now }
        ensures most { self.new.at ≤ self.old.at + length bytes.now }
    {
        if self.out.len() < self.at {
            return;
        }
        let end = self.at + bytes.len();
        if end <= self.out.len() {
            copy(&mut self.out[self.at..end], bytes);
        }
        self.at = end;
    }

    // A number in decimal digits.
    pub fn put_number(&mut self, n: u32)
        ensures keeps { Keeps self.old self.new }
        ensures puts { Puts self.old.out.now self.old.at (dec n) self.new.at self.new.out.now }
        ensures most { self.new.at ≤ self.old.at + 10 }
    {
        self.put_field(b"", n);
    }

    // A number in decimal digits, with a minus sign where it is negative. Beside `put_number`, since `dec` and `decimal` are two definitions.
    pub fn put_signed(&mut self, z: i64)
        ensures keeps { Keeps self.old self.new }
        ensures puts { Puts self.old.out.now self.old.at (decimal z) self.new.at self.new.out.now }
        ensures most { self.new.at ≤ self.old.at + 20 }
    {
        self.put_bytes(Buffer::new().format(z).as_bytes());
    }

    // A label and a number in decimal digits, both or neither. Inlined: called, it made a listing of events that are refused 1.3 times as long.
    #[inline(always)]
    pub fn put_field(&mut self, label: &[u8], n: u32)
        ensures keeps { Keeps self.old self.new }
        ensures puts { PutsBoth self.old.out.now self.old.at label.now (dec n) self.new.at self.new.out.now }
        ensures most { self.new.at ≤ self.old.at + length label.now + 10 }
    {
        if self.out.len() < self.at {
            return;
        }
        let start = self.at;
        self.at += label.len();
        self.put_bytes(Buffer::new().format(n).as_bytes());
        let behind = self.at;
        if behind <= self.out.len() {
            self.at = start;
            self.put_bytes(label);
            self.at = behind;
        }
    }
}
