// What is a script: its big-endian numbers, and whether its bytes are one.
#![tactic(auto)]

ghost use Rattle.std.specs.Prelude.{◌≡◌, ◌+◌, ◌*◌, ◌^◌, ◌<◌};
ghost use Rattle.script_form.specs.BigEndian.{byte as Number·byte, half as Number·half, word as Number·word};
ghost use Rattle.script_form.specs.Script.{good_answer, good_answers, well_formed};

// The numbers at a place of the bytes; what is missing reads 0.
pub fn byte(a: &[u8], i: usize) -> u8
    ensures { result ≡ Number·byte a.now i }
{
    slots::get_or(a, i, 0)
}

pub fn half(a: &[u8], i: usize) -> u16
    ensures { result ≡ Number·half a.now i }
{
    if a.len() <= i {
        return 0;
    }
    u16::from_be_bytes([a[i], byte(a, i + 1)])
}

pub fn word(a: &[u8], i: usize) -> u32
    ensures { result ≡ Number·word a.now i }
{
    if a.len() <= i {
        return 0;
    }
    u32::from_be_bytes([a[i], byte(a, i + 1), byte(a, i + 2), byte(a, i + 3)])
}

fn good_answer(input: &[u8], i: usize) -> bool
    requires { i < 2 ^ 62 }
    ensures { result ≡ good_answer input.now i }
{
    let code = byte(input, i + 2);
    half(input, i) == 5 && code <= 3 && (code != 1 || word(input, i + 3) <= 255)
}

// The records of n answers from place i on.
#[tactic(auto, using(crate::specs::Laws::Answers::good_none, crate::specs::Laws::Answers::good_more))]
fn good_answers(input: &[u8], n: usize, i: usize) -> bool
    requires { i + 7 * n < 2 ^ 62 }
    ensures { result ≡ good_answers input.now n i }
{
    for k in 0..n {
        if !good_answer(input, i + 7 * k) {
            return false;
        }
    }
    true
}

#[tactic(auto, unfolding(crate::specs::Script::well_formed))]
pub fn well_formed(input: &[u8]) -> bool
    ensures { result ≡ well_formed input.now }
{
    let n = input.len();
    let len = usize::from(half(input, 1));
    let end = 3 + len;
    n <= 65536
        && byte(input, 0) == 1
        && 1 <= len
        && end <= n
        && (n - end) % 7 == 0
        && good_answers(input, (n - end) / 7, end)
}
