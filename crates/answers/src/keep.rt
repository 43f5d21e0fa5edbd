// The entries that a test keeps, at the front of a lent output.
ghost use Rattle.std.specs.Prelude.{◌≡◌, ◌≤◌, ◌<◌, ℕ, Bool, get_or, length};
ghost use Rattle.answers.specs.Asking.{Front};
ghost use Rattle.answers.specs.Walks.{picked};

// A test of the entries of a list, each with its place, and with how many there are.
pub trait Test: Copy {
    // What it may say of the entry x at the place i of n.
    ghost says: { Self → ℕ → ℕ → ℕ → Bool → Type 0 };

    fn keeps(&self, i: usize, n: usize, x: u64) -> bool
        ensures { says self.now i n x result };
}

// Writes the entries that the test keeps, in turn, and returns how many there are. Nothing is written where there is no room for all.
pub fn keep<T: Test>(entries: &[u64], out: &mut [u64], test: T) -> usize
    ensures roomy { length entries.now ≤ length out.old
        → (p : ℕ → Bool) → ((i : ℕ) (r : Bool) → i < length entries.now → T.says test i (length entries.now) (get_or entries.now i 0) r → r ≡ p i)
        → Front (picked p entries.now) result out.old out.new }
    ensures short { length out.old < length entries.now → (result ≡ 0) × (out.new ≡ out.old) }
{
    if out.len() < entries.len() {
        return 0;
    }
    let mut n = 0;
    // By places: that a place is below the number of entries is then not looked at twice.
    for i in 0..entries.len() {
        let x = entries[i];
        if test.keeps(i, entries.len(), x) {
            out[n] = x;
            n += 1;
        }
    }
    n
}
