// The place of the first byte of some kind: the one search that the others are made of.
ghost use Rattle.std.specs.Prelude.{ℕ, ◌<◌, ◌≤◌, false, true, length, slice_index};

// Where the first byte stands in a that passes the test, or a's length.
pub fn first_place<F: Fn(u8) -> bool>(a: &[u8], passes: F) -> usize
    requires { (state : F) (b : ℕ) → F.pre state b }
    ensures within { result ≤ length a.now }
    ensures before { (k : ℕ) → k < result → F.post passes (slice_index a.now k) false }
    ensures found { result < length a.now → F.post passes (slice_index a.now result) true }
{
    a.iter().position(|b| passes(*b)).unwrap_or(a.len())
}
