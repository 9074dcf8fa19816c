// The sheet's bytes are walked by one cursor that holds the sheet: it is made once, at the first byte, and each read hands back the bytes
// that it read and moves the cursor behind them.
#![tactic(auto)]

ghost use Rattle.std.specs.Prelude.{◌≡◌, ◌+◌, ◌≤◌, length, take, drop};

#[derive(Drop)]
pub struct Reader<'a> {
    pub sheet: &'a [u8],
    pub at: usize,
}

impl<'a> Reader<'a> {
    pub fn new(sheet: &'a [u8]) -> Reader<'a>
        ensures { (result.sheet ≡ sheet.entry) × (result.at ≡ 0) }
    {
        Reader { sheet, at: 0 }
    }

    // The next n bytes.
    pub fn read(&mut self, n: usize) -> &'a [u8]
        requires { self.old.at + n ≤ length self.old.sheet.now }
        ensures { (result.now ≡ take n (drop self.old.at self.old.sheet.now)) × (self.new.sheet ≡ self.old.sheet) × (self.new.at ≡ self.old.at + n) }
    {
        let end = self.at + n;
        let bytes = &self.sheet[self.at..end];
        self.at = end;
        bytes
    }
}
