// Reads a script from standard input and writes its listing to standard output.
#![tactic(auto)]

ghost use Rattle.std.specs.Prelude.{◌≡◌, length};

const STDIN_FILENO: i32 = 0;

const STDOUT_FILENO: i32 = 1;

// A script has at most 65,536 bytes; one more shows that it has too many.
const INPUT_ROOM: usize = 65537;

// No listing is longer.
const OUTPUT_ROOM: usize = 1114112;

// Stays: the same line in dapsession: a crate for one line would be longer.
// So many zeros: a function of its own, since a proof that sees so many written out counts through them.
fn room<const N: usize>() -> [u8; N]
    ensures { length result ≡ N }
{
    [0; N]
}

fn main() {
    let mut input = room::<INPUT_ROOM>();
    let n = io::read_full(STDIN_FILENO, &mut input);
    let mut out = room::<OUTPUT_ROOM>();
    let k = script::dapscript(&input[..n], &mut out);
    io::write_all(STDOUT_FILENO, &out[..k]);
}
