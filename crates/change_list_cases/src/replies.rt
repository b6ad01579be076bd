// What a list of changes is answered for reply buffers of three lengths, and leaves in them and in the sheet, held against a copy
// that is changed once for each pair.
ghost use Rattle.std.specs.Prelude.{◌≡◌, ◌≤◌, length};

use crate::SHEET_BYTES;
use answers::Refusal;
use case_text::checksum::with_bytes;
use case_text::print::{print_bytes, print_refused};
use changing::change;
use changing_all::change_all;
use sheet_cases::print::{print_answer, print_changes};
use std::io;
use std::io::Write;

// Room for a reply buffer, and the most bytes that a case asks for: its longest buffer has six more.
const REPLY_BYTES: usize = 512;

const MOST_BYTES: usize = 506;

// The most pairs of which all changed bytes are told.
const FEW_PAIRS: usize = 8;

// A buffer of so many bytes, one that is a byte longer, and one that is six bytes longer. The copy has the changes of the other list.
pub fn print_buffers(
    out: &mut impl Write,
    sheet: [u8; SHEET_BYTES],
    size: usize,
    pairs: &[u64],
    others: &[u64],
    room: usize,
) -> io::Result<()>
    requires { size ≤ 5120 }
{
    if MOST_BYTES < room {
        return write!(out, " too long");
    }
    print_buffer(out, sheet, size, pairs, others, room)?;
    print_buffer(out, sheet, size, pairs, others, room + 1)?;
    print_buffer(out, sheet, size, pairs, others, room + 6)
}

// What is answered for a buffer of so many bytes. It has a sheet of its own, which no other changes.
fn print_buffer(
    out: &mut impl Write,
    sheet: [u8; SHEET_BYTES],
    size: usize,
    pairs: &[u64],
    others: &[u64],
    room: usize,
) -> io::Result<()>
    requires { (size ≤ 5120) × (room ≤ 512) }
{
    let mut changed = sheet;
    let mut copy = sheet;
    write!(out, "\n  buffer of {room}")?;
    run_list(
        out,
        &mut changed[0..size],
        &mut copy[0..size],
        pairs,
        others,
        room,
    )
}

// Applies a list to a sheet, and tells what comes of it. Before, each byte of the buffer is A5, and each behind it.
fn run_list(
    out: &mut impl Write,
    sheet: &mut [u8],
    copy: &mut [u8],
    pairs: &[u64],
    others: &[u64],
    room: usize,
) -> io::Result<()>
    requires { (length copy.old ≡ length sheet.old) × (room ≤ 512) }
{
    let mut replies = [0xA5u8; REPLY_BYTES];
    let answer = change_all(sheet, pairs, &mut replies[0..room]);
    print_replied(out, answer, &replies)?;
    print_apart(out, pairs, copy, sheet)?;
    if answer.is_ok() {
        print_held(out, sheet, &replies, others, copy)?;
    }
    Ok(())
}

// The answer of `changing_all::change_all`, ` replied PAIRS [REPLIES]` or a refusal; and a checksum of what it changed in the buffer
// and behind it, 0 where it changed nothing.
fn print_replied(
    out: &mut impl Write,
    answer: Result<usize, Refusal>,
    replies: &[u8; REPLY_BYTES],
) -> io::Result<()> {
    match answer {
        Ok(count) => {
            write!(out, " replied {count}")?;
            print_first(out, replies, count)?;
        }
        Err(refusal) => print_refused(out, refusal.number(), refusal.place())?,
    }
    write!(out, ", checksum {}", with_bytes(0, replies, 0xA5))
}

// A buffer's first bytes.
fn print_first(out: &mut impl Write, bytes: &[u8], count: usize) -> io::Result<()> {
    if count <= bytes.len() {
        write!(out, " [")?;
        print_bytes(out, &bytes[0..count])?;
        write!(out, "]")?;
    }
    Ok(())
}

// The bytes that changed in the sheet; of a long list a checksum of all that it has now.
fn print_apart(out: &mut impl Write, pairs: &[u64], before: &[u8], after: &[u8]) -> io::Result<()>
    requires { length before.now ≡ length after.now }
{
    if pairs.len() / 2 <= FEW_PAIRS {
        write!(out, ", bytes")?;
        return print_changes(out, before, after);
    }
    write!(out, ", sheet {}", with_bytes(0, after, 0))
}

// What reading says of the sheet, and whether sheet and replies are those of a copy with the changes of a list, made one by one.
fn print_held(
    out: &mut impl Write,
    changed: &[u8],
    replies: &[u8; REPLY_BYTES],
    others: &[u64],
    copy: &mut [u8],
) -> io::Result<()> {
    print_answer(out, b", read", reading::read(changed))?;
    let mut wanted = [0xA5u8; REPLY_BYTES];
    change_singly(copy, others, &mut wanted);
    if changed == &*copy && replies == &wanted {
        return write!(out, ", as one by one");
    }
    write!(out, ", not as one by one")
}

// Makes the changes of a list one by one, and notes a reply for each.
fn change_singly(sheet: &mut [u8], pairs: &[u64], replies: &mut [u8]) {
    for i in 0..pairs.len() / 2 {
        let made = change(sheet, pairs[2 * i] as usize, pairs[2 * i + 1]);
        put_reply(replies, i, made);
    }
}

// Notes a reply, where there is room.
fn put_reply(replies: &mut [u8], i: usize, made: Result<(), Refusal>) {
    if i < replies.len() {
        replies[i] = reply_of(made);
    }
}

// 0 for a change that was made, else the refusal's number, if it is a byte's.
fn reply_of(made: Result<(), Refusal>) -> u8 {
    match made {
        Ok(()) => 0,
        Err(refusal) => u8::try_from(refusal.number()).unwrap_or(255),
    }
}
