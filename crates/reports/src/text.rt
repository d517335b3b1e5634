// Text that is written into its caller's bytes, from their start on. Nothing here allocates, so the length stands beside them.
ghost use Rattle.std.specs.Prelude.{◌≡◌, ◌<◌, [], ◌∷◌, decimal};
ghost use Rattle.std.specs.Char.{digit_char};
ghost use Rattle.reports.specs.Hex.{pair};
ghost use Rattle.reports.specs.Text.{Fits, Appends, line_end};

#[derive(Drop)]
pub struct Text<'a> {
    bytes: &'a mut [u8],
    // How many of the bytes are written.
    len: usize,
}

impl<'a> Text<'a> {
    // An empty text over these bytes, none of which it touches.
    pub fn new(bytes: &'a mut [u8]) -> Text<'a>
        ensures bytes { result.bytes.now ≡ bytes.old }
        ensures len { result.len ≡ 0 }
        ensures same { result.bytes.ghost_name ≡ bytes.entry.ghost_name }
    {
        Text { bytes, len: 0 }
    }

    pub fn len(&self) -> usize
        ensures { result ≡ self.now.len }
    {
        self.len
    }

    pub fn push(&mut self, byte: u8)
        requires { Fits self.old (byte ∷ []) }
        ensures { Appends self.old (byte ∷ []) self.new }
    {
        self.bytes[self.len] = byte;
        self.len += 1;
    }

    pub fn end_line(&mut self)
        requires { Fits self.old line_end }
        ensures { Appends self.old line_end self.new }
    {
        self.push(b'\n');
    }

    pub fn push_str(&mut self, text: &str)
        requires { Fits self.old text.now }
        ensures { Appends self.old text.now self.new }
    {
        let start = self.len;
        let end = start + text.len();
        self.bytes[start..end].copy_from_slice(text.as_bytes());
        self.len = end;
    }

    // The number in plain decimal. By hand: by its contract a `write!` may fail, and a line that has room may not.
    pub fn push_decimal(&mut self, n: usize)
        requires { Fits self.old (decimal n) }
        ensures { Appends self.old (decimal n) self.new }
    {
        if n >= 10 {
            self.push_decimal(n / 10);
        }
        self.push(b'0' + (n % 10) as u8);
    }

    // The byte in hexadecimal, by hand as well.
    pub fn push_pair(&mut self, byte: u8)
        requires { Fits self.old (pair byte) }
        ensures { Appends self.old (pair byte) self.new }
    {
        self.push(hex_digit(byte / 16));
        self.push(hex_digit(byte % 16));
    }
}

fn hex_digit(n: u8) -> u8
    requires { n < 16 }
    ensures { result ≡ digit_char n }
{
    char::from_digit(u32::from(n), 16).unwrap() as u8
}
