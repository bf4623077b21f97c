// The instructions and the kerns that words of a file hold, written to the front of a list (TeX 541, 545). A word's
// place is below 2^40.
ghost use Rattle.std.specs.Prelude.{◌≡◌, ◌+◌, ◌*◌, ◌≤◌, length};
ghost use Rattle.std.proofs.lemmas.List.Edits.{sets};
ghost use Rattle.words.specs.Lists.{Filling, Appending};
ghost use Rattle.files.specs.Commands.{command_numbers, kern_number};
ghost use Rattle.files.specs.Reading.{commands_from};

use file_commands::{kern_word, kind_word, next_word, operand_word, word_byte};

// The four numbers of the instruction in word w are stored from place `at` on.
fn put_command(file: &[u8], w: usize, out: &mut [i32], at: usize)
    requires { at + 4 ≤ length out.old }
    ensures { out.new ≡ sets out.old at (command_numbers file.now w) }
{
    let a = word_byte(file, w, 0);
    let b = word_byte(file, w, 1);
    let c = word_byte(file, w, 2);
    let d = word_byte(file, w, 3);
    words::i32s::put_word(out, at, next_word(a));
    words::i32s::put_word(out, at + 1, b as u32);
    words::i32s::put_word(out, at + 2, kind_word(a, c));
    words::i32s::put_word(out, at + 3, operand_word(a, c, d));
}

// The instructions of n words from word w on, written to the front of the output.
pub(crate) fn write_commands(file: &[u8], w: usize, n: usize, out: &mut [i32])
    requires { (w + n ≤ 1099511627776) × (4 * n ≤ length out.old) }
    ensures { Appending (commands_from file.now w n) out.old out.new }
{
    for i in 0..n {
        put_command(file, w + i, out, 4 * i);
    }
}

// The kerns in n words from word w on, written to the front of the output.
pub(crate) fn write_kerns(file: &[u8], w: usize, n: usize, out: &mut [i32])
    requires { (w + n ≤ 1099511627776) × (n ≤ length out.old) }
    ensures { Filling (λ i. kern_number file.now (w + i)) out.old out.new
        n }
{
    for i in 0..n {
        words::i32s::put_word(out, i, kern_word(file, w + i));
    }
}
