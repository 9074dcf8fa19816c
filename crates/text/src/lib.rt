// Text written into a lent buffer, piece by piece, each behind the one before.
#![tactic(auto)]

ghost use Rattle.std.specs.Prelude.{◌≡◌, [], ◌∷◌, ◌+◌, ◌<◌, ◌≤◌, length};
ghost use Rattle.text.specs.Text.{decimal_text, signed_text, refused_text};
ghost use Rattle.text.specs.Written.{HasRoom, Gained};

// The first word that stands for a negative number.
const FIRST_NEGATIVE: u32 = 0x8000_0000;

// A lent buffer and how many bytes of it are written, from its start. The bytes past them are as they were lent.
#[derive(Drop)]
pub struct Text<'a> {
    bytes: &'a mut [u8],
    len: usize,
}

impl<'a> Text<'a> {
    pub fn new(bytes: &'a mut [u8]) -> Text<'a>
        ensures same_reference { result.bytes.ghost_name ≡ bytes.entry.ghost_name }
        ensures bytes { result.bytes.now ≡ bytes.old }
        ensures empty { result.len ≡ 0 }
    {
        Text { bytes, len: 0 }
    }

    pub fn len(&self) -> usize
        ensures { result ≡ self.now.len }
    {
        self.len
    }

    pub fn put_byte(&mut self, byte: u8)
        requires { HasRoom self.old 1 }
        ensures { Gained self.old self.new (byte ∷ []) }
    {
        self.bytes[self.len] = byte;
        self.len += 1;
    }

    pub fn put_bytes(&mut self, bytes: &[u8])
        requires { HasRoom self.old (length bytes.now) }
        ensures { Gained self.old self.new bytes.now }
    {
        let end = self.len + bytes.len();
        self.bytes[self.len..end].copy_from_slice(bytes);
        self.len = end;
    }

    // A number of 64 bits in decimal, as many digits as it has.
    pub fn put_number(&mut self, n: u64)
        requires { HasRoom self.old (length (decimal_text n)) }
        ensures { Gained self.old self.new (decimal_text n) }
    {
        let mut digits = [0u8; 20];
        let k = io::decimal(n, &mut digits);
        self.put_bytes(&digits[..k]);
    }

    // One of 32 bits: at most ten digits, and at most four below 10,000.
    pub fn put_decimal(&mut self, n: u32)
        requires { HasRoom self.old 10 }
        ensures gained { Gained self.old self.new (decimal_text n) }
        ensures upper_bound { self.new.len ≤ self.old.len + 10 }
        ensures upper_bound_2 { n < 10000 → self.new.len ≤ self.old.len + 4 }
    {
        self.put_number(n as u64);
    }

    // A space and a number.
    pub fn put_next(&mut self, n: u32)
        requires { HasRoom self.old 11 }
        ensures gained { Gained self.old self.new (32 ∷ decimal_text n) }
        ensures upper_bound { self.new.len ≤ self.old.len + 11 }
    {
        self.put_byte(b' ');
        self.put_decimal(n);
    }

    // The signed number that a word of 32 bits stands for: at most ten digits and a minus sign.
    pub fn put_signed(&mut self, word: u32)
        requires { HasRoom self.old 11 }
        ensures gained { Gained self.old self.new (signed_text word) }
        ensures upper_bound { self.new.len ≤ self.old.len + 11 }
    {
        if word < FIRST_NEGATIVE {
            self.put_decimal(word);
        } else {
            self.put_byte(b'-');
            self.put_decimal(0xffff_ffff - word + 1);
        }
    }

    // The line of an input that is refused by n.
    pub fn put_refused(&mut self, n: u32)
        requires { HasRoom self.old 19 }
        ensures { Gained self.old self.new (refused_text n) }
    {
        self.put_bytes(b"refused ");
        self.put_decimal(n);
        self.put_byte(b'\n');
    }
}
