// Texts and numbers in lent bytes.
#![tactic(auto)]

ghost use Rattle.text.specs.Text.{labelled, decimal};
ghost use Rattle.text.specs.Putting.{HasRoom, Adds};

// Lent bytes, and where the text ends that was put into them. Each method puts more text after it.
#[derive(Drop)]
pub struct Writer<'a> {
    pub bytes: &'a mut [u8],
    pub end: usize,
}

impl<'a> Writer<'a> {
    // A text.
    pub fn put(&mut self, text: &[u8])
        requires { HasRoom self.old text.now }
        ensures { Adds self.old text.now self.new }
    {
        let at = self.end;
        let end = at + text.len();
        let bytes = &mut *self.bytes;
        bytes[at..end].copy_from_slice(text);
        self.end = end;
    }

    // A number, in decimal digits.
    pub fn put_decimal(&mut self, n: u32)
        requires { HasRoom self.old (decimal n) }
        ensures { Adds self.old (decimal n) self.new }
    {
        if n < 10 {
            return self.put(&[b'0' + n as u8]);
        }
        self.put_decimal(n / 10);
        self.put(&[b'0' + (n % 10) as u8]);
    }

    // A word and a number.
    pub fn put_labelled(&mut self, word: &[u8], n: u32)
        requires { HasRoom self.old (labelled word.now n) }
        ensures { Adds self.old (labelled word.now n) self.new }
    {
        self.put(word);
        self.put_decimal(n);
    }
}
