// The record of a line: the state that an anchor and the changes behind it have made, as bytes.
ghost use Rattle.std.specs.Prelude.{◌≡◌, cond, ◌+◌, ◌≤◌, length, take, drop, replicate};
ghost use Rattle.octets.specs.Writing.{bytes_of, pasted};
ghost use Rattle.numbers.specs.Numbers.{is_none};
ghost use Rattle.slice.specs.Record.{record_size, view_of};
ghost use Rattle.history.specs.State.{applied};
ghost use Rattle.baselines.specs.Carried.{Carries, line_size, record_of, Turns, mentions_over, unknown_state};

use numbers::Instant;
use octets::{byte, put, put32};
use slice::life_of;

// Writes a life time where one is given.
fn put_time(record: &mut [u8], at: usize, time: Instant)
    ensures { «record».new ≡ cond (is_none time) «record».old
        (pasted «record».old at (bytes_of 4 time.0)) }
{
    if !time.is_none() {
        put32(record, at, time.0);
    }
}

// Copies the eight bytes of one place to another: all are read before one is written, which the compiler makes one load and
// one store of. The library's copy of so few bytes takes longer.
fn copy8(line: &mut [u8], to: usize, other: &[u8], at: usize)
    requires { (to + 8 ≤ length line.old) × (at + 8 ≤ length other.now) }
    ensures { line.new ≡ pasted line.old to (take 8 (drop at other.now)) }
{
    let a = other[at];
    let b = other[at + 1];
    let c = other[at + 2];
    let d = other[at + 3];
    let e = other[at + 4];
    let f = other[at + 5];
    let g = other[at + 6];
    let h = other[at + 7];
    line[to] = a;
    line[to + 1] = b;
    line[to + 2] = c;
    line[to + 3] = d;
    line[to + 4] = e;
    line[to + 5] = f;
    line[to + 6] = g;
    line[to + 7] = h;
}

// Copies n bytes from one place on to another, eight at a time.
fn copy(line: &mut [u8], to: usize, other: &[u8], at: usize, n: usize)
    requires { (to + n ≤ length line.old) × (at + n ≤ length other.now) }
    ensures { line.new ≡ pasted line.old to (take n (drop at other.now)) }
{
    let mut i = 0;
    while n - i >= 8 {
        copy8(line, to + i, other, at + i);
        i += 8;
    }
    put(line, to + i, &other[at + i..at + n]);
}

// Writes the properties that a PERMDELTA mentions over those of a line's state. What is not mentioned goes behind
// the record, so that nothing jumps by what a PERMDELTA mentions.
fn put_mentions(line: &mut [u8], delta: &[u8], stride: usize)
    requires { (length delta.now ≡ record_size stride) × (length line.old ≡ line_size stride) }
    ensures { Turns stride (mentions_over (view_of stride delta.now)) line.old line.new }
{
    for n in 0..8 {
        let at = 32 + n * stride;
        let to = if byte(delta, at) == 0 {
            delta.len()
        } else {
            at
        };
        copy(line, to, delta, at, stride);
    }
}

// Makes the line of a state that of the state with a PERMDELTA applied.
fn apply(line: &mut [u8], delta: &[u8], stride: usize)
    requires { (length delta.now ≡ record_size stride) × (length line.old ≡ line_size stride) }
    ensures { Turns stride (λ s. applied s (view_of stride delta.now)) line.old line.new }
{
    put_mentions(line, delta, stride);
    let life = life_of(delta);
    put_time(line, 16, life.begin);
    put_time(line, 20, life.end);
}

// The same where the PERMDELTA goes to the line, and else nothing.
pub(crate) fn apply_where(goes: bool, line: &mut [u8], delta: &[u8], stride: usize)
    requires { (length delta.now ≡ record_size stride) × (length line.old ≡ line_size stride) }
    ensures { Turns stride (λ s. cond goes (applied s (view_of stride delta.now)) s) line.old
        line.new }
{
    if goes {
        apply(line, delta, stride);
    }
}

// Makes a line of zeros that of a state of which nothing is known: no life time, eight properties that
// nothing mentions.
pub(crate) fn put_unknown(line: &mut [u8], stride: usize)
    requires { (line.old ≡ replicate (line_size stride) 0) × (2 ≤ stride) }
    ensures { Carries stride unknown_state (record_of stride line.new) }
{
    put(line, 16, &[255; 8]);
    for n in 0..8 {
        put(line, 32 + n * stride, &[1, 4]);
    }
}
