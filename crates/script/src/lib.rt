// A script: a call for a new engine and the answers of its transport calls in, the listing of what the call did out.
#![tactic(auto)]

ghost use Rattle.std.specs.Prelude.{◌≡◌, ℕ, true, cond, Some, ◌+◌, ◌-◌, ◌*◌, ◌^◌, ◌≤◌, ◌<◌, length, drop};
ghost use Rattle.std.proofs.lemmas.List.Edits.{sets};
ghost use Rattle.script_form.specs.BigEndian.{word as Number·word, row};
ghost use Rattle.script_request.specs.Request.{words_of, bytes_of};
ghost use Rattle.script_lines.specs.Listing.{run_lines};
ghost use Rattle.script_lines.specs.Laws.Puts.{Puts};
ghost use Rattle.script_form.specs.Script.{call_end, answer_count, answer_at};
ghost use Rattle.script.specs.Output.{shown_of, is_frame, performed, request_text, script_text, output_of};
ghost use Rattle.script.specs.Laws.Loads.{Row};
ghost use Rattle.script.specs.Laws.Lending.{zeros, Zeros, word_count, byte_count};
ghost use Rattle.script_form.specs.Laws.Sizes.{Sizes};

use script_form::{byte, half, word};
use script_lines::Shown;
use script_request::{Buffer, Request};
use wire_numbers::CallEnding;

fn answer_at(input: &[u8], i: usize) -> u64
    requires { i < 2 ^ 62 }
    ensures { result ≡ answer_at input.now i }
{
    let code = u64::from(byte(input, i + 2));
    let value = u64::from(word(input, i + 3));
    code * 0x100000000 + value
}

// What `read` gives at place i and at each place `size` behind the one before, as far as `xs` reaches.
#[tactic(auto, using(crate::specs::Laws::Loads::row_more, crate::specs::Laws::Loads::row_done))]
fn load<T: Copy, F: Fn(usize) -> T>(xs: &mut [T], i: usize, size: usize, read: F)
    requires room { i + size * length xs.old < 2 ^ 62 }
    requires callable { (k : ℕ) → k < 2 ^ 62 → F.pre read k }
    ensures { Row (λ k x. F.post read k x) size i xs.new }
{
    for k in 0..xs.len() {
        xs[k] = read(i + size * k);
    }
}

// The bytes behind an address.
fn load_bytes(a: &[u8], buf: &mut [u8])
    requires { length buf.old ≡ length a.now - 4 }
    ensures { buf.new ≡ drop 4 a.now }
{
    if let Some(rest) = a.get(4..) {
        buf.copy_from_slice(rest);
    }
}

// Zeros for what a call is lent.
// Stays: a function of one line for each type: the zero of a type parameter takes a trait that says it.
fn zero_words() -> [u32; 65536]
    ensures { result ≡ zeros 65536 }
{
    [0; 65536]
}

fn zero_bytes() -> [u8; 65536]
    ensures { result ≡ zeros 65536 }
{
    [0; 65536]
}

// Room for the answers, and for the calls that they answer.
fn zero_answers() -> [u64; 9361]
    ensures { 9361 ≡ length result }
{
    [0; 9361]
}

// Puts what a call is lent into words and bytes that are zeros.
fn fill(b: Buffer, a: &[u8], words: &mut [u32], buf: &mut [u8])
    requires { Zeros b a.now words.old buf.old }
    ensures { (words.new ≡ words_of b a.now) × (buf.new ≡ bytes_of b a.now) }
{
    match b {
        Buffer::GivenWords(size) => load(words, usize::from(size), 4, |i| word(a, i)),
        Buffer::GivenBytes => load_bytes(a, buf),
        _ => {}
    }
}

// What is shown of a call that was lent this.
fn shown_of(e: CallEnding, b: Buffer) -> Shown
    ensures { result ≡ shown_of e b }
{
    match b {
        Buffer::Words(_) => Shown::Words,
        Buffer::Bytes(_) => Shown::Bytes,
        Buffer::Frame if e.number == 0 => Shown::Words,
        _ => Shown::Nothing,
    }
}

// The listing of a run, with the frame or the words that it left.
fn put_performed(
    out: &mut [u8],
    log: &[u64],
    e: CallEnding,
    b: Buffer,
    frame: &[u32; 8],
    words: &[u32],
    buf: &[u8],
) -> usize
    requires { (length log.now ≤ 9361) × (length frame.now ≡ 8) × (length words.now < 65536) × (length buf.now < 65536) }
    ensures { Puts out.old 0
        (run_lines log.now e (shown_of e b) (cond (is_frame b) frame.now words.now) buf.now)
        out.new result × (result ≤ 1114112) }
{
    let shown = shown_of(e, b);
    match b {
        Buffer::Frame => script_lines::put_run(out, log, e, shown, frame, buf),
        _ => script_lines::put_run(out, log, e, shown, words, buf),
    }
}

// A call on a new engine, and its listing. No script has more than 9,361 answers.
// Stays: words and buf apart, each with its bound, here and below: engine_run::run and script_lines::put_run take them so.
fn perform(r: Request, answers: &[u64], words: &mut [u32], buf: &mut [u8], out: &mut [u8]) -> usize
    requires { (length answers.now ≤ 9361) × (length words.old < 65536) × (length buf.old < 65536) }
    ensures { Puts out.old 0 (performed r words.old buf.old answers.now) out.new result
        × (result ≤ 1114112) }
{
    let mut log = zero_answers();
    let mut frame = [0u32; 8];
    let ran = engine_run::run(
        call::new(),
        r.call,
        answers.len() as u32,
        answers,
        &mut frame,
        words,
        buf,
        &mut log,
    );
    let n = ran.count as usize;
    put_performed(out, &log[..n], ran.ending, r.buffer, &frame, words, buf)
}

// How many words a call is lent that has n bytes of arguments.
fn word_count(b: Buffer, n: usize) -> usize
    requires { n ≤ 65536 }
    ensures { (result ≡ word_count b n) × (result < 65536) }
{
    match b {
        Buffer::Words(k) => usize::from(k),
        Buffer::GivenWords(size) => n.saturating_sub(usize::from(size)) / 4,
        _ => 0,
    }
}

// How many bytes.
fn byte_count(b: Buffer, n: usize) -> usize
    requires { n ≤ 65536 }
    ensures { (result ≡ byte_count b n) × (result < 65536) }
{
    match b {
        Buffer::Bytes(k) => usize::from(k),
        Buffer::GivenBytes => n.saturating_sub(4),
        _ => 0,
    }
}

// A call with its arguments and answers, over zeros that become what it is lent.
fn asked(r: Request, a: &[u8], answers: &[u64], out: &mut [u8]) -> usize
    requires { (length a.now ≤ 65536) × (length answers.now ≤ 9361) }
    ensures { Puts out.old 0
        (performed r (words_of r.buffer a.now) (bytes_of r.buffer a.now) answers.now)
        out.new result × (result ≤ 1114112) }
{
    let mut zero_words = zero_words();
    let mut zero_bytes = zero_bytes();
    let words = &mut zero_words[..word_count(r.buffer, a.len())];
    let buf = &mut zero_bytes[..byte_count(r.buffer, a.len())];
    fill(r.buffer, a, words, buf);
    perform(r, answers, words, buf, out)
}

// A call whose record ends at `end`, with the answers behind it.
fn answered(r: Request, input: &[u8], end: usize, out: &mut [u8]) -> usize
    requires { Sizes input.now × (end ≡ call_end input.now) }
    ensures { Puts out.old 0 (request_text (Some r) input.now) out.new result × (result ≤ 1114112) }
{
    let mut room = zero_answers();
    let answers = &mut room[..(input.len() - end) / 7];
    load(answers, end, 7, |i| answer_at(input, i));
    asked(r, &input[4..end], answers, out)
}

// A well-formed script.
fn put_script(input: &[u8], out: &mut [u8]) -> usize
    requires { Sizes input.now }
    ensures { Puts out.old 0 (script_text input.now) out.new result × (result ≤ 1114112) }
{
    let end = 3 + usize::from(half(input, 1));
    match script_request::request_of(byte(input, 3), &input[4..end]) {
        Some(r) => answered(r, input, end, out),
        None => script_lines::put_malformed(out),
    }
}

// The whole output of a script, as far as `out` reaches; answers its length.
pub fn dapscript(input: &[u8], out: &mut [u8]) -> usize
    ensures { (result ≡ length (output_of input.now))
        × (out.new ≡ sets out.old 0 (output_of input.now))
        × (result ≤ 1114112) }
{
    if script_form::well_formed(input) {
        return put_script(input, out);
    }
    script_lines::put_malformed(out)
}
