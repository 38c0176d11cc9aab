// A loop in C or Rust over the exported functions is a caller's loop over the session: proved in proofs/ of what these functions ensure.
// This function only makes it a crate.
#![tactic(auto)]

ghost use Rattle.std.specs.Prelude.{◌≡◌, get_or};
ghost use Rattle.abi_words.specs.Numbers.{end_numbers};

// The kind that a loop ends at.
pub fn end() -> u32
    ensures { result ≡ get_or (end_numbers 0 0 0) 0 0 }
{
    0
}
