// A font with its word, as a reply: compiled, its word set, the reply written; or the number of a refusal (R200 to
// R204). What compiling wrote has the form of a table, so nothing checks it again.
#![tactic(auto)]

ghost use Rattle.std.specs.Prelude.{◌≡◌, [], ◌<◌, length};
ghost use Rattle.fonts.specs.Fonts.{font_of};
ghost use Rattle.lang.specs.Checks.{or_else, lower};
ghost use Rattle.lang.specs.Answers.{written_reply};
ghost use Rattle.columns.specs.Ligcols.{signs_refusal, alone_number, word_number, column_bytes, column_number};
ghost use Rattle.text_font_reply.specs.Answering.{AnswersBytes, fresh_bytes, fresh_number};

use caption_run::begin::letters_refusal;
use captions::RunOptions;
use compile::compile;
use fonts::Compiled;
use lang::Written;
use program_checks::lower_of;
use text_reply::write_reply;
use word_set::set_fresh;
use words::slices::zero_all;
use words::word_of;

// Room for what compiling writes: six numbers a pair, two an op, two a loop, and sixteen numbers of work a pair.
fn pair_list() -> [i32; 3072]
    ensures { 3072 ≡ length result }
{
    [0; 3072]
}

fn op_list() -> [i32; 4096]
    ensures { 4096 ≡ length result }
{
    [0; 4096]
}

fn loop_list() -> [i32; 128]
    ensures { 128 ≡ length result }
{
    [0; 128]
}

fn rows() -> [u32; 8192]
    ensures { 8192 ≡ length result }
{
    [0; 8192]
}

// Room for the items of a word: six numbers an item.
fn item_list() -> [i32; 5310]
    ensures { 5310 ≡ length result }
{
    [0; 5310]
}

// A number, with the reply all zeros.
fn refuse(reply: &mut [u8], number: u32) -> Written
    requires { 0 < number }
    ensures { AnswersBytes number [] reply.old result reply.new }
{
    zero_all(reply);
    Written::Refused(number)
}

// The table, the loops and the items of a word, as a reply. A negative count of letters says that there is no word.
fn answer_table(
    pairs: &[i32],
    ops: &[i32],
    loops: &[i32],
    boundary: i32,
    letters: i32,
    word: &[u32],
    reply: &mut [u8],
) -> Written
    ensures { AnswersBytes
        (fresh_number pairs.now ops.now loops.now boundary letters
        word.now (length reply.old))
        (fresh_bytes pairs.now ops.now loops.now boundary letters
        word.now) reply.old result reply.new }
{
    let mut items = item_list();
    if 2147483648 <= word_of(letters) {
        return write_reply(pairs, ops, loops, letters, &items[..0], reply);
    }
    let options = RunOptions {
        disable_left_boundary: false,
        right_boundary_override: -1,
    };
    match set_fresh(pairs, ops, boundary, word, options, &mut items) {
        Written::Count(n) => write_reply(pairs, ops, loops, letters, &items[..6 * n], reply),
        Written::Refused(n) => refuse(reply, n),
    }
}

// 4: a letter below 0, by the highest of its 32 bits.
pub fn signs_refusal(word: &[u32]) -> u32
    ensures { result ≡ signs_refusal word.now }
{
    for letter in word {
        if 2147483648 <= *letter {
            return 4;
        }
    }
    0
}

// The number of a refusal, else 0.
fn number_in(written: Written) -> u32
    ensures { result ≡ (written_reply written).number }
{
    match written {
        Written::Count(_) => 0,
        Written::Refused(n) => n,
    }
}

// The number of a word that can't be set, or 15 where that is lower and the lines without a word are too many.
fn refuse_word(pairs: &[i32], ops: &[i32], loops: &[i32], number: u32, reply: &mut [u8]) -> Written
    requires { 0 < number }
    ensures { AnswersBytes
        (lower number (alone_number pairs.now ops.now loops.now
        (length reply.old))) [] reply.old result reply.new }
{
    let alone = write_reply(pairs, ops, loops, -1, &loops[..0], reply);
    let short = number_in(alone);
    refuse(reply, lower_of(number, short))
}

// The table, the loops and the items of a word, as a reply; 20 of a word with what is no letter.
fn answer_word(
    pairs: &[i32],
    ops: &[i32],
    loops: &[i32],
    boundary: i32,
    letters: i32,
    word: &[u32],
    reply: &mut [u8],
) -> Written
    ensures { AnswersBytes
        (or_else
        (word_number pairs.now ops.now loops.now word.now
        (length reply.old))
        (fresh_number pairs.now ops.now loops.now boundary letters
        word.now (length reply.old)))
        (fresh_bytes pairs.now ops.now loops.now boundary letters
        word.now) reply.old result reply.new }
{
    let none = letters_refusal(word);
    if none != 0 {
        return refuse_word(pairs, ops, loops, none, reply);
    }
    answer_table(pairs, ops, loops, boundary, letters, word, reply)
}

// A font compiled, and its word set: the lowest number of the two, or the reply.
pub fn answer_font(
    instructions: &[i32],
    kerns: &[i32],
    entries: &[i32],
    boundary: i32,
    left_entry: i32,
    design_size: i32,
    letters: i32,
    word: &[u32],
    reply: &mut [u8],
) -> Written
    ensures { AnswersBytes
        (column_number
        (font_of instructions.now kerns.now entries.now boundary
        left_entry design_size) letters word.now (length reply.old))
        (column_bytes
        (font_of instructions.now kerns.now entries.now boundary
        left_entry design_size) letters word.now) reply.old result
        reply.new }
{
    let mut pairs = pair_list();
    let mut ops = op_list();
    let mut loops = loop_list();
    let mut work = rows();
    let bad = signs_refusal(word);
    match compile(
        instructions,
        kerns,
        entries,
        boundary,
        left_entry,
        design_size,
        0,
        0,
        &mut pairs,
        &mut ops,
        &mut loops,
        &mut work,
    ) {
        Compiled::Refused(n) => refuse(reply, lower_of(n, bad)),
        Compiled::Tables(p, o, l) => {
            if bad != 0 {
                return refuse(reply, bad);
            }
            answer_word(
                &pairs[..6 * p],
                &ops[..2 * o],
                &loops[..2 * l],
                boundary,
                letters,
                word,
                reply,
            )
        }
    }
}
