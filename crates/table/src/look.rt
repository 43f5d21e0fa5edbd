// A search by powers of two, look by look. No branch depends on what is seen: on x86-64 a search that halves compiles to a
// jump on every look, and half of these are predicted wrong.
ghost use Rattle.std.specs.Prelude.{◌≡◌, ◌+◌, ◌^◌, ◌<◌, ◌≤◌, length};
ghost use Rattle.table.specs.Search.{begun, looked};

pub(crate) fn power(s: u64) -> usize
    requires { s < 64 }
    ensures { result ≡ 2 ^ s }
{
    1 << s
}

// The exponent of the greatest power of two that is at most n.
pub(crate) fn exponent(n: usize) -> u64
    requires { 0 < n }
    ensures { (result < 64) × (2 ^ result ≤ n) × (n < 2 ^ (result + 1)) }
{
    63 - u64::leading_zeros(n as u64) as u64
}

// Where a search begins: the place of k is at most p places further.
pub(crate) fn begin(t: &[u64], p: usize, k: u64) -> usize
    requires { (0 < p) × (p ≤ length t.now) }
    ensures { result ≡ begun t.now p k }
{
    let seen = t[p - 1];
    if seen < k { t.len() - p } else { 0 }
}

// One look: where the place of k was at most 2 * 2^s places further, it is at most 2^s places further then.
pub(crate) fn look(t: &[u64], at: usize, s: u64, k: u64) -> usize
    requires { (s < 64) × (at + 2 ^ s ≤ length t.now) }
    ensures { result ≡ looked t.now at (2 ^ s) k }
{
    let last = at + power(s) - 1;
    let seen = t[last];
    let less = (seen < k) as usize;
    at + (less << s)
}
