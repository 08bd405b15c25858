// Sets of terminals as u32 masks: bit i stands for terminal i. Every function takes any arguments;
// a terminal from 32 up is in no set.
#![tactic(auto)]

ghost use Rattle.std.specs.Prelude.{◌≡◌, ℕ, Bool, ◌<◌, min};
ghost use Rattle.sets.specs.Sets.{mem, mask, within, singleton, with, without, outside, is_partition};

pub fn member(s: u32, i: usize) -> bool
    ensures { result ≡ mem i s }
{
    if i < 32 {
        return (s >> i) & 1 == 1;
    }
    false
}

// No terminal of s is at or above n.
pub fn within(s: u32, n: usize) -> bool
    ensures { result ≡ within n s }
{
    if n < 32 {
        return s >> n == 0;
    }
    true
}

pub fn singleton(i: usize) -> u32
    ensures { result ≡ singleton 32 i }
{
    if i < 32 {
        return 1u32 << i;
    }
    0
}

pub fn with(s: u32, i: usize) -> u32
    ensures { result ≡ with 32 s i }
{
    s | singleton(i)
}

pub fn without(s: u32, i: usize) -> u32
    ensures { result ≡ without 32 s i }
{
    s & !singleton(i)
}

// The terminals below n that are in neither of two sets.
pub fn outside(n: usize, a: u32, b: u32) -> u32
    ensures { result ≡ outside (min n 32) a b }
{
    if n < 32 {
        return ((1u32 << n) - 1) & !(a | b);
    }
    !(a | b)
}

// The terminals below n that pass the test, up to 32 of them. No terminal is passed over by a branch, so that the
// compiler can look at several at once.
pub fn those<F: Fn(usize) -> bool>(n: usize, test: F) -> u32
    requires { (j : ℕ) → j < n → F.pre test j }
    ensures { (P : ℕ → Bool) → ((j : ℕ) (b : Bool) → j < min n 32 → F.post test j b → b ≡ P j) → result ≡ mask (min n 32) P }
{
    let mut found: u32 = 0;
    for j in 0..n.min(32) {
        let one = test(j) as u32;
        found = found | (one << j);
    }
    found
}

// Each terminal below n is in one of three sets, and nobody else is.
pub fn is_partition(n: usize, f: u32, l: u32, r: u32) -> bool
    ensures { result ≡ is_partition n f l r }
{
    if 32 < n {
        return false;
    }
    if within(f, n) {
        if within(l, n) {
            if f & l == 0 {
                return outside(n, f, l) == r;
            }
        }
    }
    false
}
