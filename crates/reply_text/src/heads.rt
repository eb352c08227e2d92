ghost use Rattle.std.specs.Prelude.{◌≡◌, ◌+◌, ◌≤◌, ◌∷◌, ◌++◌, length, take, OnErr, OnOk, []};
ghost use Rattle.std.specs.Fmt.{decimal};
ghost use Rattle.reply_text.specs.Heads.{head_text, refused_text, text};
ghost use Rattle.reply_text.specs.Words.{line};

use crate::reply::{Refused, Reply};
use base_text::Bytes;
use itoa::Buffer;
use std::alloc::AllocError;

/// Writes the piece at a place, and answers the place behind it.
fn put(into: &mut [u8; 80], at: usize, piece: &[u8]) -> usize
    requires { at + length piece.now ≤ 80 }
    ensures end { result ≡ at + length piece.now }
    ensures put { take result into.new ≡ take at into.old ++ piece.now }
{
    let end = at + piece.len();
    into[at..end].copy_from_slice(piece);
    end
}

/// Writes a space and the number at a place, and answers the place behind them.
fn put_number(into: &mut [u8; 80], at: usize, number: u64) -> usize
    requires { at ≤ 59 }
    ensures end { result ≤ at + 21 }
    ensures put { take result into.new ≡ take at into.old ++ 32 ∷ decimal number }
{
    let start = put(into, at, b" ");
    let mut buffer = Buffer::new();
    put(into, start, buffer.format(number).as_bytes())
}

/// Writes the first line of a reply, with its line feed, to the front of `into`. It answers the length of the line.
///
/// It is `ok N MOMENT` or `no N MOMENT CODE`. It takes no memory.
#[tactic(auto, unfolding(crate::specs::Words::line))]
pub fn head(r: &Reply, into: &mut [u8; 80]) -> usize
    ensures within { result ≤ 80 }
    ensures text { take result into.new ≡ head_text r.now }
{
    if r.code == 0 {
        let word = put(into, 0, b"ok");
        let number = put_number(into, word, r.number);
        let moment = put_number(into, number, r.moment);
        put(into, moment, b"\n")
    } else {
        let word = put(into, 0, b"no");
        let number = put_number(into, word, r.number);
        let moment = put_number(into, number, r.moment);
        let code = put_number(into, moment, u64::from(r.code));
        put(into, code, b"\n")
    }
}

/// Writes a word, a number and a line feed to the front of `into`, and answers their length.
#[tactic(auto, unfolding(crate::specs::Words::line))]
fn put_refusal(into: &mut [u8; 80], word: &[u8], number: u64) -> usize
    requires { length word.now ≤ 10 }
    ensures within { result ≤ 80 }
    ensures text { take result into.new ≡ line (word.now ∷ decimal number ∷ []) }
{
    let word = put(into, 0, word);
    let end = put_number(into, word, number);
    put(into, end, b"\n")
}

/// Writes the line that answers a request that has no reply, with its line feed, to the front of `into`. It answers the
/// length of the line.
///
/// It is `full ENTRIES`, `fault N` or `memory`. It takes no memory.
#[tactic(auto, unfolding(crate::specs::Words::line))]
pub fn refused(r: &Refused, into: &mut [u8; 80]) -> usize
    ensures within { result ≤ 80 }
    ensures text { take result into.new ≡ refused_text r.now }
{
    match *r {
        Refused::Full { count } => put_refusal(into, b"full", count),
        Refused::DeviceFault { number } => put_refusal(into, b"fault", number),
        Refused::Memory => put(into, 0, b"memory\n"),
    }
}

/// Appends the text of a reply. If it fails, a front of the text may have been appended.
#[tactic(auto, unfolding(crate::specs::Heads::text, crate::specs::Words::line))]
fn push_reply(out: &mut Bytes, r: &Reply) -> Result<(), AllocError>
    ensures ok { OnOk result (out.new ≡ out.old ++ text r.now) }
    ensures err { OnErr result (take (length out.old) out.new ≡ out.old) }
{
    let mut line = [0; 80];
    let end = head(r, &mut line);
    out.push(&line[..end])?;
    out.push(r.body.as_slice())?;
    if r.code == 0 {
        out.push(b".\n")?;
    }
    Ok(())
}

/// Appends the text of a reply: its head, its body and, with code 0, the line `.`.
///
/// It fails only if memory runs out, and then appends nothing.
pub fn write_reply(out: &mut Bytes, r: &Reply) -> Result<(), AllocError>
    ensures ok { OnOk result (out.new ≡ out.old ++ text r.now) }
    ensures err { OnErr result (out.new ≡ out.old) }
{
    let start = out.len();
    let pushed = push_reply(out, r);
    if pushed.is_err() {
        out.truncate(start);
    }
    pushed
}
