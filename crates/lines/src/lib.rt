// A line of text on its way to standard output. It is written where it ends, and in parts where it is longer than SPACE.
#![tactic(auto, using(crate::proofs::Gaining::gaining))]

ghost use Rattle.std.specs.Prelude.{◌≡◌, [], ◌-◌, ◌<◌, length};
ghost use Rattle.lines.specs.Text.{after, after_all, blanks, hex_digit, hex_digits, hex_bytes, field, named, GainsNumber};

use arrayvec::ArrayVec;
use std::convert::AsSlice;
use std::io::Stdout;
use std::marker::Model;

const SPACE: usize = 512;

#[derive(Drop)]
pub struct Line {
    out: Stdout,
    text: ArrayVec<u8, SPACE>,
}

// A clause sees a line as the bytes that it holds.
impl Model for Line {
    ghost use Rattle.std.specs.Prelude.{ℕ, List};

    ghost Value = { List ℕ };

    ghost view = { λ line. line.text.items };
}

// The hexadecimal digit of a number.
// Stays: upper case (hex_digit), which the programs print; the library's digits are in lower case.
fn digit(d: u8) -> u8
    requires { d < 16 }
    ensures { result ≡ hex_digit d }
{
    if d < 10 { b'0' + d } else { b'A' - 10 + d }
}

// The one function that writes. That it does, and where, no contract can say. What a failed write leaves out is not written again.
fn write(out: Stdout, text: &[u8]) {
    let _ = out.write_all(text);
}

impl Line {
    pub fn new(out: Stdout) -> Self
        ensures { result ≡ [] }
    {
        Line {
            out,
            text: ArrayVec::new(),
        }
    }

    // One byte. A full line is written first, which leaves it empty.
    #[tactic(auto, unfolding(crate::specs::Text::after))]
    fn put(&mut self, byte: u8)
        ensures { self.new ≡ after self.old byte }
    {
        if self.text.is_full() {
            write(self.out, self.text.as_slice());
            self.text.clear();
        }
        self.text.push(byte);
    }

    pub fn text<T: AsSlice<u8> + Drop>(mut self, text: T) -> Self
        ensures { result ≡ after_all self (T.items text) }
    {
        for &byte in text.as_slice() {
            self.put(byte);
        }
        self
    }

    // Some blanks.
    fn fill(mut self, count: usize) -> Self
        ensures { result ≡ after_all self (blanks count) }
    {
        for _ in 0..count {
            self.put(b' ');
        }
        self
    }

    // Blanks up to a column; the first column is 0.
    pub fn column(self, column: usize) -> Self
        ensures { result ≡ after_all self (blanks (column - length self)) }
    {
        let length = self.text.len();
        self.fill(column.saturating_sub(length))
    }

    // A number, with blanks before it where it is shorter than the width.
    pub fn decimal(self, x: u64, width: usize) -> Self
        ensures { GainsNumber self result [] x width }
    {
        // Stays: write! promises its text on Ok alone (GainsNumber).
        let mut digits = [0u8; 20];
        let n = io::decimal(x, &mut digits);
        self.fill(width.saturating_sub(n)).text(&digits[..n])
    }

    // As many of a number's last digits, in hexadecimal: at most 255, so that the calls do not run deep.
    fn put_hex(&mut self, x: u32, digits: u8)
        ensures { self.new ≡ after_all self.old (hex_digits digits x) }
    {
        if digits > 0 {
            self.put_hex(x / 16, digits - 1);
            self.put(digit((x % 16) as u8));
        }
    }

    // The same, of a line that is handed on.
    pub fn hex(mut self, x: u32, digits: u8) -> Self
        ensures { result ≡ after_all self (hex_digits digits x) }
    {
        self.put_hex(x, digits);
        self
    }

    // Bytes, two digits each, one blank between.
    pub fn hex_bytes(mut self, bytes: &[u8]) -> Self
        ensures { result ≡ after_all self (hex_bytes bytes.now) }
    {
        let Some((&first, rest)) = bytes.split_first() else {
            return self;
        };
        self.put_hex(u32::from(first), 2);
        for &byte in rest {
            self.put(b' ');
            self.put_hex(u32::from(byte), 2);
        }
        self
    }

    // Bytes behind two blanks; nothing where there are none.
    pub fn bytes(self, bytes: &[u8]) -> Self
        ensures { result ≡ after_all self (field bytes.now) }
    {
        if bytes.is_empty() {
            return self;
        }
        self.fill(2).hex_bytes(bytes)
    }

    // The name of a field, two blanks before it and one behind it.
    pub fn name<T: AsSlice<u8> + Drop>(self, name: T) -> Self
        ensures { result ≡ after_all self (named (T.items name)) }
    {
        self.fill(2).text(name).fill(1)
    }

    // A field that is a number.
    pub fn number<T: AsSlice<u8> + Drop>(self, name: T, x: u32, width: usize) -> Self
        ensures { GainsNumber self result (named (T.items name)) x width }
    {
        self.name(name).decimal(u64::from(x), width)
    }

    // A line feed, and the line is written.
    pub fn end(mut self) {
        self.put(b'\n');
        write(self.out, self.text.as_slice());
    }
}
