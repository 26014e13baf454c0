// What a step came to as text, in the oracle's form (oracle/README.md): the script program's line, and behind it the whole state as rows of
// numbers. A row's kind is a number, 0 to 11, as that form has it, and not an enum. Nothing here is part of the promises: it is one side of
// the comparison with the Rust. What does not fit a buffer is not written.
#![tactic(auto)]

ghost use Rattle.std.specs.Prelude.{◌≤◌};
ghost use Rattle.rules.specs.Sizes.{slot_count};

use arrays::{Arrays, Came};
use batches::{Batches, PermitClocks};
use head::Head;
use printing::bit;
use queue::Waiters;
use replies::Reply;
use state::{BatchSemaphore, Stepped};

// Bytes at a place of a buffer; the place after them.
pub fn put(buf: &mut [u8], at: usize, w: &[u8]) -> usize {
    if buf.len().saturating_sub(at) <= w.len() {
        return at;
    }
    text::put(buf, at, w)
}

fn put_digits(buf: &mut [u8], at: usize, n: u32) -> usize {
    if buf.len().saturating_sub(at) < 11 {
        return at;
    }
    text::print_number(buf, at, n)
}

fn put_number(buf: &mut [u8], at: usize, n: u32) -> usize {
    let p = put(buf, at, b" ");
    put_digits(buf, p, n)
}

fn word(words: &[u32], at: usize) -> u32 {
    words.get(at).copied().unwrap_or(0)
}

// The place so far behind another; behind the last comes the first, as in a ring.
fn behind(at: usize, by: usize, len: usize) -> usize {
    if len.saturating_sub(at) <= by {
        0
    } else {
        at + by
    }
}

// n words from a place on.
fn put_words(buf: &mut [u8], at: usize, words: &[u32], from: usize, n: usize) -> usize {
    let mut p = at;
    let mut k = from;
    for _ in 0..n {
        p = put_number(buf, p, word(words, k));
        k = behind(k, 1, words.len());
    }
    p
}

// A row: its kind and what it is of, and n words from a place on.
fn put_row(buf: &mut [u8], at: usize, of: &[u32], words: &[u32], k: usize, n: usize) -> usize {
    let p = put_words(buf, at, of, 0, of.len());
    let q = put_words(buf, p, words, k, n);
    put(buf, q, b"\n")
}

// The row of an item, if it stands: where slots are lent, if the slot of its number is in use.
fn put_item(
    buf: &mut [u8],
    at: usize,
    kind: u32,
    i: u32,
    words: &[u32],
    k: usize,
    n: usize,
    slots: &[u32],
) -> usize {
    if !slots.is_empty() && word(slots, i as usize * 10) == 0 {
        return at;
    }
    put_row(buf, at, &[kind, i], words, k, n)
}

// So many rows of a table from a place on, n words of each; where slots are lent, of those in use.
fn put_table(
    buf: &mut [u8],
    at: usize,
    kind: u32,
    count: u32,
    words: &[u32],
    from: usize,
    wide: usize,
    n: usize,
    slots: &[u32],
) -> usize {
    let mut p = at;
    let mut k = from;
    for i in 0..count {
        p = put_item(buf, p, kind, i, words, k, n, slots);
        k = behind(k, wide, words.len());
    }
    p
}

fn put_waiters(buf: &mut [u8], at: usize, waiters: Waiters) -> usize {
    let mut p = at;
    for x in &waiters.slots[..waiters.len.min(32) as usize] {
        p = put_number(buf, p, u32::from(x.0));
    }
    p
}

// The queue, and the reservation.
fn put_queue(buf: &mut [u8], at: usize, h: Head) -> usize {
    let p = put_number(buf, at, 6);
    let q = put_waiters(buf, p, h.waiters);
    let e = put(buf, q, b"\n");
    match h.reservation {
        Some(x) => put_row(buf, e, &[7], &[u32::from(x.0)], 0, 1),
        None => put_row(buf, e, &[7], &[], 0, 0),
    }
}

// The batches from the oldest on, and their clocks of n entries.
fn put_batches(buf: &mut [u8], at: usize, b: Batches, n: usize, w: Arrays) -> usize {
    let ready = bit(b.permit_clocks.is_some());
    let ring = b
        .permit_clocks
        .unwrap_or(PermitClocks { head: 0, count: 0 });
    let count = ring.count.min(64);
    let first = ring.head as usize;
    let p = put_row(buf, at, &[3, ready], &w.sizes, first, count as usize);
    put_table(buf, p, 4, count, &w.rows, first * 16, 16, n, &[])
}

// The semaphore itself.
fn put_semaphore(buf: &mut [u8], at: usize, s: BatchSemaphore, n: usize, w: Arrays) -> usize {
    let h = s.head;
    let unfair = bit(!h.strictly_fair());
    let p2 = put_row(buf, at, &[2, unfair, bit(h.closed), h.stock], &[], 0, 0);
    let p4 = put_batches(buf, p2, s.batches, n, w);
    let p5 = put_row(buf, p4, &[5], &w.last, 0, n);
    put_queue(buf, p5, h)
}

fn put_tasks(buf: &mut [u8], at: usize, n: u32, w: Arrays) -> usize {
    let p = put_table(buf, at, 8, n, &w.tasks, 0, 2, 2, &[]);
    put_table(buf, p, 9, n, &w.clocks, 0, 16, n as usize, &[])
}

// The requests in their slots.
fn put_requests(buf: &mut [u8], at: usize, n: usize, w: Arrays) -> usize {
    let slots = w.slots;
    let p = put_table(buf, at, 10, 32, &slots, 0, 10, 10, &slots);
    put_table(buf, p, 11, 32, &w.makers, 0, 16, n, &slots)
}

fn put_state(buf: &mut [u8], at: usize, s: BatchSemaphore, w: Arrays) -> usize {
    let h = s.head;
    let n = h.tasks.min(16);
    let p7 = put_semaphore(buf, at, s, n as usize, w);
    let p9 = put_tasks(buf, p7, n, w);
    put_requests(buf, p9, n as usize, w)
}

// The script program's line.
fn put_line(buf: &mut [u8], at: usize, r: Stepped, grants: &[u32; 96]) -> usize {
    let n = grants_of(r.count);
    let reply = r.reply;
    let s = r.state;
    let c = printing::counts_of(s.head);
    if buf.len().saturating_sub(at) < printing::line_room(reply, c, n) {
        return at;
    }
    printing::print_line(buf, at, reply, c, grants, n as usize)
}

// How many grants stand in their words.
fn grants_of(count: usize) -> u8
    ensures { result ≤ slot_count }
{
    count.min(32) as u8
}

// The rows of an accepted step: what its questions about points were told, its grants, and the state.
fn put_rows(buf: &mut [u8], at: usize, told: &[u32], asked: usize, r: Stepped, w: Arrays) -> usize {
    let s = r.state;
    let p0 = put_row(buf, at, &[0], told, 0, asked);
    let p1 = put_row(buf, p0, &[1], &w.grants, 0, 3 * grants_of(r.count) as usize);
    put_state(buf, p1, s, w)
}

// The line of a step, and where it was accepted the rows.
pub fn put_step(buf: &mut [u8], at: usize, told: &[u32], asked: usize, c: Came) -> usize {
    let r = c.stepped;
    let w = c.arrays;
    let p = put_line(buf, at, r, &w.grants);
    let reply = r.reply;
    if let Reply::Refused(_) = reply {
        return p;
    }
    put_rows(buf, p, told, asked, r, w)
}
