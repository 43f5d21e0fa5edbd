// What writes to a lent buffer: bytes, texts and numbers, one after another.
ghost use Rattle.std.specs.Prelude.{◌≡◌, ◌+◌, ◌≤◌, ◌<◌, length, [], ◌∷◌, ◌++◌};
ghost use Rattle.model.specs.Listing.{decimal};
ghost use Rattle.print.specs.Printers.{Wrote};

// The buffer, and the place after the last byte that was written.
#[derive(Drop)]
pub(crate) struct Printer<'a> {
    pub out: &'a mut [u8],
    pub at: usize,
}

// How many digits n has. A `while`: it counts digits and no places.
fn places(n: u64) -> usize
    ensures { result ≡ length (decimal n) }
{
    let mut k = 1;
    let mut rest = n;
    while 10 <= rest {
        rest /= 10;
        k += 1;
    }
    k
}

impl Printer<'_> {
    // One byte.
    pub fn byte(&mut self, b: u8)
        requires { self.old.at < length self.old.out.now }
        ensures { Wrote (b ∷ []) 1 self.old self.new }
    {
        self.out[self.at] = b;
        self.at += 1;
    }

    // Some bytes, where std's `fmt` would prove nothing of what it writes.
    pub fn text(&mut self, text: &[u8])
        requires { self.old.at + length text.now ≤ length self.old.out.now }
        ensures { Wrote text.now (length text.now) self.old self.new }
    {
        let end = self.at + text.len();
        self.out[self.at..end].copy_from_slice(text);
        self.at = end;
    }

    // The digits from the last to the first. One digit, which most numbers of a listing have, is put without a division.
    pub fn number(&mut self, n: u64)
        requires { self.old.at + length (decimal n) ≤ length self.old.out.now }
        ensures { Wrote (decimal n) 20 self.old self.new }
    {
        if n < 10 {
            self.byte(48 + n as u8);
            return;
        }
        let end = self.at + places(n);
        let mut rest = n;
        for i in (self.at..end).rev() {
            self.out[i] = 48 + (rest % 10) as u8;
            rest /= 10;
        }
        self.at = end;
    }

    // A label of at most 9 bytes and its number.
    pub fn labelled(&mut self, label: &[u8], n: u64)
        requires { (length label.now ≤ 9) × (self.old.at + 29 ≤ length self.old.out.now) }
        ensures { Wrote (label.now ++ decimal n) 29 self.old self.new }
    {
        self.text(label);
        self.number(n);
    }
}
