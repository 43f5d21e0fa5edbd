// Refusal 9: a lent table that is shorter than its fixed need.
ghost use Rattle.std.specs.Prelude.{◌≡◌};
ghost use Rattle.model.specs.Refusal.{short};

// Whether one of them is, each given by its length and its need.
pub fn is_short(lent: &[(usize, usize)]) -> bool
    ensures { result ≡ short lent.now }
{
    lent.iter().any(|(length, need)| length < need)
}
