// A place of a slice that may be missing: what is read there is the caller's default, and what is put there is dropped.
#![tactic(auto)]

ghost use Rattle.std.specs.Prelude.{◌≡◌, set, get_or};

// The value at place i; past the end `other`.
pub fn get_or<T: Copy>(xs: &[T], i: usize, other: T) -> T
    ensures { result ≡ get_or xs.now i other }
{
    xs.get(i).copied().unwrap_or(other)
}

// x at place i; past the end it is dropped.
pub fn put<T: Copy>(xs: &mut [T], i: usize, x: T)
    ensures { xs.new ≡ set xs.old i x }
{
    if i < xs.len() {
        xs[i] = x;
    }
}
