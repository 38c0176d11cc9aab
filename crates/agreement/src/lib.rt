// Demand 3, proved of the definitions in specs/. This function only makes it a crate.
#![tactic(auto)]

ghost use Rattle.std.specs.Prelude.{◌≡◌};

// The SELECT that claims nothing.
pub fn unknown() -> u32
    ensures { result ≡ 0xFFFFFFFF }
{
    0xFFFFFFFF
}
