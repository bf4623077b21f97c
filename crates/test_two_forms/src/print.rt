// What the lines are made of.
ghost use Rattle.std.specs.Prelude.{◌<◌};

use captions::Answer;
use lang::Written;

pub(crate) fn text(rt: &impl Print, s: &[u8]) {
    let _ = rt.write_all(s);
}

fn number(rt: &impl Print, n: u64) {
    let _ = rt.print(n);
}

// A signed number, from its bits.
fn signed(rt: &impl Print, word: u32) {
    if word < 2147483648 {
        number(rt, word as u64);
    } else {
        text(rt, b"-");
        number(rt, 4294967296 - (word as u64));
    }
}

// A number after a space.
fn spaced(rt: &impl Print, n: u64) {
    text(rt, b" ");
    number(rt, n);
}

// A word and a number, each after a space.
fn said(rt: &impl Print, name: &[u8], n: u64) {
    text(rt, b" ");
    text(rt, name);
    spaced(rt, n);
}

// The number of a refusal, which ends the line.
pub(crate) fn refused(rt: &impl Print, n: u32) {
    said(rt, b"refused", n as u64);
    text(rt, b"\n");
}

// The first n indices of a list.
fn indices(rt: &impl Print, list: &[u32], n: usize) {
    for i in 0..n {
        spaced(rt, words::slices::item_at(list, i) as u64);
    }
}

// The indices of a chain, as many as were written.
pub(crate) fn chain(rt: &impl Print, written: Written, list: &[u32]) {
    match written {
        Written::Count(n) => indices(rt, list, n),
        Written::Refused(n) => said(rt, b"refused", n as u64),
    }
}

// The rule of a right character.
pub(crate) fn rule(rt: &impl Print, right: u8, found: Option<usize>) {
    text(rt, b";");
    said(rt, b"rule of", right as u64);
    match found {
        Some(i) => said(rt, b"at", i as u64),
        None => text(rt, b" nowhere"),
    }
}

fn character(rt: &impl Print, code: u32, at: usize) {
    said(rt, b"character", code as u64);
    said(rt, b"at", at as u64);
}

fn flag(rt: &impl Print, set: bool, name: &[u8]) {
    if set {
        text(rt, name);
    }
}

// A ligature with its original, and which boundaries it took in.
fn ligature(rt: &impl Print, code: u32, start: usize, length: usize, left: bool, right: bool) {
    said(rt, b"ligature", code as u64);
    said(rt, b"of", length as u64);
    said(rt, b"from", start as u64);
    flag(rt, left, b" left");
    flag(rt, right, b" right");
}

fn kern(rt: &impl Print, scaled: i32) {
    text(rt, b" kern ");
    signed(rt, words::word_of(scaled));
}

// An answer; whether others come after it.
fn answered(rt: &impl Print, answer: Answer) -> bool {
    match answer {
        Answer::Char(code, at) => character(rt, code, at),
        Answer::Ligature(code, start, length, l, r) => ligature(rt, code, start, length, l, r),
        Answer::Kern(scaled) => kern(rt, scaled),
        Answer::End => {
            text(rt, b" end\n");
            return false;
        }
        Answer::Refused(n) => {
            refused(rt, n);
            return false;
        }
    }
    text(rt, b";");
    true
}

// An item of a word, of which at most `left` are to come. Answers how many are to come after it: none after the end.
pub(crate) fn item(rt: &impl Print, answer: Answer, left: usize) -> usize
    requires { 0 < left }
    ensures { result < left }
{
    if answered(rt, answer) { left - 1 } else { 0 }
}
