// The cases of 01 that are marked P, one table in specs/Table.antt, proved of the definitions. This function only makes it a crate.
#![tactic(auto)]

ghost use Rattle.std.specs.Prelude.{◌≡◌};

// How many tries a transfer has.
pub fn tries() -> u32
    ensures { result ≡ 65 }
{
    65
}
