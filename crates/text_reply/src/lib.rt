// The reply to a column text, written (R204 to R210). First its length is decided (size), then its parts are written,
// each line once and in place (parts), and zeros after the last.
#![tactic(auto)]

ghost use Rattle.std.specs.Prelude.{◌≡◌, leb};
ghost use Rattle.lang.specs.Every.{both};
ghost use Rattle.columns.specs.Replying.{reply_bytes, WritesReply};

use crate::parts::put_reply;
use crate::size::reply_size;
use lang::Written;
use words::slices::zero_all;
use words::word_of;

mod parts;
mod size;

// A reply has room: in 65,536 bytes and in what is lent.
fn has_room(size: usize, room: usize) -> bool
    ensures { result ≡ both (leb size 65536) (leb size room) }
{
    size <= 65536 && size <= room
}

// The reply, with zeros after it. Answers how many bytes it has; 15, and zeros, where they are over 65,536 or more than
// there is room for.
pub fn write_reply(
    pairs: &[i32],
    ops: &[i32],
    loops: &[i32],
    letters: i32,
    items: &[i32],
    reply: &mut [u8],
) -> Written
    ensures { WritesReply
        (reply_bytes pairs.now ops.now loops.now letters items.now)
        reply.old result reply.new }
{
    let word = word_of(letters);
    let size = reply_size(pairs, loops, word, items);
    if !has_room(size, reply.len()) {
        zero_all(reply);
        return Written::Refused(15);
    }
    put_reply(pairs, ops, loops, word, items, reply);
    zero_all(&mut reply[size..]);
    Written::Count(size)
}
