// Searches over the places from one number up to another, by a test that the caller gives. What a
// search answers is said of every function `p` that the test computes (`Computes` of
// `specs/Tests.antt`).
ghost use Rattle.std.specs.Prelude.{◌≡◌, ◌-◌, ℕ, Bool};
ghost use Rattle.octets.specs.First.{all, count, first};
ghost use Rattle.octets.specs.Tests.{Computes, MayTest};

// The first place that passes.
pub fn first<F: Fn(usize) -> bool>(from: usize, to: usize, test: F) -> Option<usize>
    requires { MayTest from to (F.pre test) }
    ensures { (p : ℕ → Bool) → Computes from to (F.post test) p → result ≡ first p (to - from) from }
{
    for i in from..to {
        if test(i) {
            return Some(i);
        }
    }
    None
}

// Whether every place passes.
pub fn all<F: Fn(usize) -> bool>(from: usize, to: usize, test: F) -> bool
    requires { MayTest from to (F.pre test) }
    ensures { (p : ℕ → Bool) → Computes from to (F.post test) p → result ≡ all p (to - from) from }
{
    for i in from..to {
        if !test(i) {
            return false;
        }
    }
    true
}

// How many places pass.
pub fn count<F: Fn(usize) -> bool>(from: usize, to: usize, test: F) -> usize
    requires { MayTest from to (F.pre test) }
    ensures { (p : ℕ → Bool) → Computes from to (F.post test) p → result ≡ count p (to - from) from }
{
    let mut found = 0;
    for i in from..to {
        if test(i) {
            found += 1;
        }
    }
    found
}
