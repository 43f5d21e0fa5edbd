// What is known of a candidate while the marks are made.
ghost use Rattle.std.specs.Prelude.{◌≡◌, ℕ, ◌+◌, ◌<◌};
ghost use Rattle.corner.specs.Weights.{dir};
ghost use Rattle.marks.specs.Standing.{Small, Standing, marked, max_marks, mood, word};

use corner::bits::{Corner, CornerStatus};

// More marks than a batch makes, four for each corner change: what a mood has room for.
pub(crate) const MARKS: u64 = 1048576;

// Its status; one more than its place among the old points, or 0; one more than the number of the first mark that
// queued it, or 0. 0 stays the number for none: `Mood::of_word` promises it, and all three are kept in one word.
#[derive(Clone, Copy)]
pub struct Mood {
    pub status: u8,
    pub old: u64,
    pub first: u64,
}

impl Mood {
    // All three in one word: 4 bits, 7 bits, and the rest.
    pub(crate) fn word(self) -> u64
        requires { (self.status < 16) × (self.old < 128) × (self.first < max_marks) }
        ensures { (w : Standing) → self ≡ mood w → result ≡ word w }
    {
        self.status as u64 + 16 * self.old + 2048 * self.first
    }

    pub fn of_word(w: u64) -> Mood
        ensures { (result.status < 16) × (result.old < 128) × ((s : Standing) → Small s → w ≡ word s → result ≡ mood s) }
    {
        Mood {
            status: (w % 16) as u8,
            old: w / 16 % 128,
            first: w / 2048,
        }
    }

    // The n-th mark sets or clears the corner's bit. A point that loses its last bit goes, and one that comes back is new. One
    // that comes, or keeps another bit where this one is clear, is queued.
    pub(crate) fn marked(self, corner: Corner, on: bool, n: u64) -> Mood
        requires { (self.status < 16) × (self.old < 128) × (self.first < max_marks) × (n + 1 < max_marks) }
        ensures { (result.status < 16) × (result.old < 128) × (result.first < max_marks)
            × ((w : Standing) (k : ℕ) → self ≡ mood w → result ≡ mood (marked n (record { dir = dir corner; at = k; on = on }) w)) }
    {
        let was = CornerStatus { bits: self.status };
        let is = was.set(corner, on);
        let stays = is.is_corner();
        let queues = if on { !was.is_corner() } else { stays };
        Mood {
            status: is.bits,
            old: if stays { self.old } else { 0 },
            first: if queues && self.first == 0 {
                n + 1
            } else {
                self.first
            },
        }
    }
}
