// Copyright 2026 Kenta Ida
// SPDX-License-Identifier: Apache-2.0
// Ported from arm-debug/src/lib.rs of ciniml/rust-dap.

// Words of the row and bytes of the caller's buffer, from one to the other.
#![tactic(auto)]

ghost use Rattle.std.specs.Prelude.{◌≡◌, ◌+◌, ◌^◌, ◌<◌, set, drop};
ghost use Rattle.wire.specs.Bytes.{le_word, put_word};
ghost use Rattle.call_bytes.specs.Bytes.{store_words, store_part, load_words, patch_word, from_place};

// A word, as bytes, from place i on; what falls outside is dropped.
fn put_word(dst: &mut [u8], i: usize, w: u32)
    requires { i + 3 < 2 ^ 64 }
    ensures { dst.new ≡ put_word dst.old i w }
{
    let b = w.to_le_bytes();
    slots::put(dst, i, b[0]);
    slots::put(dst, i + 1, b[1]);
    slots::put(dst, i + 2, b[2]);
    slots::put(dst, i + 3, b[3]);
}

// The word of the four bytes from place i on; what is missing reads 0.
fn get_word(src: &[u8], i: usize) -> u32
    requires { i + 3 < 2 ^ 64 }
    ensures { result ≡ le_word src.now i }
{
    u32::from_le_bytes([
        slots::get_or(src, i, 0),
        slots::get_or(src, i + 1, 0),
        slots::get_or(src, i + 2, 0),
        slots::get_or(src, i + 3, 0),
    ])
}

// n words of the row, as bytes, at the front of dst: those that lie whole in both with no test on each byte, then the rest.
fn put_words(dst: &mut [u8], row: &[u32], n: u32)
    ensures { dst.new ≡ store_words n row.now dst.old }
{
    let end = (n as usize).min(dst.len() / 4 + 1);
    let whole = end.min(row.len()).min(dst.len() / 4);
    // Stays: two loops, as one takes 7 instructions a word and these 1; by index, as no clause tells an element after `chunks_exact_mut`.
    for j in 0..whole {
        dst[4 * j..4 * j + 4].copy_from_slice(&row[j].to_le_bytes());
    }
    for j in whole..end {
        put_word(dst, 4 * j, slots::get_or(row, j, 0));
    }
}

// n words of the row, as bytes, from place `at` of the buffer on.
pub fn store_words(buf: &mut [u8], at: u32, row: &[u32], n: u32)
    ensures { buf.new ≡ from_place at (store_words n row.now) buf.old }
{
    let i = (at as usize).min(buf.len());
    put_words(&mut buf[i..], row, n);
}

// `count` bytes of the word, from its byte `skip` on, at the front of dst.
fn put_part(dst: &mut [u8], word: u32, skip: u32, count: u32)
    ensures { dst.new ≡ store_part count word skip dst.old }
{
    let bytes = word.to_le_bytes();
    let first = skip as usize;
    for j in 0..(count as usize).min(dst.len()) {
        dst[j] = slots::get_or(&bytes, first + j, 0);
    }
}

// `count` bytes of the word, from its byte `skip` on, from place `at` of the buffer on.
pub fn store_part(buf: &mut [u8], at: u32, word: u32, skip: u32, count: u32)
    ensures { buf.new ≡ from_place at (store_part count word skip) buf.old }
{
    let i = (at as usize).min(buf.len());
    put_part(&mut buf[i..], word, skip, count);
}

// n words from the front of src, in the row's first places: those that lie whole in both with no test on each byte, then the rest.
fn get_words(row: &mut [u32], src: &[u8], n: u32)
    ensures { row.new ≡ load_words n src.now row.old }
{
    let end = (n as usize).min(row.len());
    let whole = end.min(src.len() / 4);
    // Stays: two loops, as one takes 7 instructions a word and these 1; by index, as no clause tells an element after `iter_mut`.
    for j in 0..whole {
        row[j] = get_word(&src[4 * j..4 * j + 4], 0);
    }
    for j in whole..end {
        row[j] = get_word(src, 4 * j);
    }
}

// n words from place `at` of the buffer on, in the row's first places.
pub fn load_words(row: &mut [u32], buf: &[u8], at: u32, n: u32)
    ensures { row.new ≡ load_words n (drop at buf.now) row.old }
{
    let i = (at as usize).min(buf.len());
    get_words(row, &buf[i..], n);
}

// In the row's first place the word, of which `count` bytes from `skip` on are the buffer's from place `at` on.
pub fn patch(row: &mut [u32], buf: &[u8], at: u32, skip: u32, count: u32, word: u32)
    ensures { row.new ≡ set row.old 0 (patch_word count word skip (drop at buf.now)) }
{
    let from = at as usize;
    let first = skip as usize;
    let mut bytes = word.to_le_bytes();
    for j in 0..(count as usize).min(4 - first.min(4)) {
        bytes[first + j] = slots::get_or(buf, from + j, 0);
    }
    slots::put(row, 0, get_word(&bytes, 0));
}
