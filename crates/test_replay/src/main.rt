// Replays stored vectors from the unchanged Rust: each is a script and what `dapscript` must print for it.
// Standard input: for each vector two lengths of 4 bytes, big-endian, then the script and the text.
#![tactic(auto)]

const STDIN_FILENO: i32 = 0;

const STDOUT_FILENO: i32 = 1;

// As many vectors are read.
const VECTORS: u64 = 100000;

// The next length of the input, or its end.
fn next_length() -> Option<usize> {
    let mut bytes = [0u8; 4];
    if io::read_full(STDIN_FILENO, &mut bytes) < bytes.len() {
        return None;
    }
    Some(u32::from_be_bytes(bytes) as usize)
}

// Whether the script prints the text.
fn agrees(script: &[u8], text: &[u8], out: &mut [u8]) -> bool {
    let n = script::dapscript(script, out);
    out.get(..n)
        .is_some_and(|printed| check::same(printed, text))
}

// Whether the next vector of the input agrees, or the input's end. A vector that does not fit the buffers differs.
fn next_vector(script: &mut [u8], text: &mut [u8], out: &mut [u8]) -> Option<bool> {
    let n = next_length()?;
    let m = next_length()?;
    let (Some(script), Some(text)) = (script.get_mut(..n), text.get_mut(..m)) else {
        return Some(false);
    };
    io::read_full(STDIN_FILENO, script);
    io::read_full(STDIN_FILENO, text);
    Some(agrees(script, text, out))
}

fn report(agree: u64, differ: u64) {
    io::print_decimal(STDOUT_FILENO, agree);
    io::write_all(STDOUT_FILENO, b" vectors agree, ");
    io::print_decimal(STDOUT_FILENO, differ);
    io::write_all(STDOUT_FILENO, b" differ\n");
}

fn main() {
    // Stays: arrays of the greatest size: a Vec would bring a failure of its own that no vector has.
    let mut script = [0u8; 65600];
    let mut text = [0u8; 262144];
    let mut out = [0u8; 1048576];
    let mut agree = 0u64;
    let mut differ = 0u64;
    for _ in 0..VECTORS {
        match next_vector(&mut script, &mut text, &mut out) {
            Some(true) => agree = agree.wrapping_add(1),
            Some(false) => differ = differ.wrapping_add(1),
            None => break,
        }
    }
    report(agree, differ);
}
