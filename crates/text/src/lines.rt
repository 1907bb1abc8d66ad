// The text of a listing. Each function writes at a place of the bytes that it is lent, and answers the
// place behind what it wrote.
ghost use Rattle.std.specs.Prelude.{◌+◌, ◌*◌, ◌≤◌, ◌<◌, ◌∷◌, [], ◌++◌, map, length, Ok, Err};
ghost use Rattle.laws.specs.Lists.{joined};
ghost use Rattle.slice.specs.Record.{record_size, parts_of};
ghost use Rattle.table.specs.Header.{count_of, stride_of, records_of};
ghost use Rattle.table.specs.Steps.{Whole};
ghost use Rattle.text.specs.Listing.{digits_of, decimal_of, end_of, form_of, line_of, text_of};
ghost use Rattle.text.specs.Wrote.{Wrote};
ghost use Rattle.slice.specs.Refusing.{number};

use numbers::Instant;
use octets::{byte, put};
use slice::{Period, Refusal, key_of, period_of};
use table::{count_of, record_at, record_size, stride_of};

// Writes some letters.
fn put_letters(s: &mut [u8], at: usize, letters: &[u8]) -> usize
    requires { at + length letters.now ≤ length s.old }
    ensures { Wrote (length letters.now) s.old at letters.now s.new result }
{
    put(s, at, letters);
    at + letters.len()
}

// Writes the decimal digits of a number, at most k of them.
fn put_digits(s: &mut [u8], at: usize, k: usize, n: u32) -> usize
    requires { at + k ≤ length s.old }
    ensures { Wrote k s.old at (digits_of k n) s.new result }
{
    if k == 0 {
        return at;
    }
    if n < 10 {
        return put_letters(s, at, &[b'0' + n as u8]);
    }
    let end = put_digits(s, at, k - 1, n / 10);
    put_letters(s, end, &[b'0' + (n % 10) as u8])
}

// Writes a number and a space.
fn put_number(s: &mut [u8], at: usize, n: u32) -> usize
    requires { at + 11 ≤ length s.old }
    ensures { Wrote 11 s.old at (decimal_of n ++ (32 ∷ [])) s.new result }
{
    let end = put_digits(s, at, 10, n);
    put_letters(s, end, b" ")
}

// Writes an end, or `-`.
#[tactic(auto, using(crate::proofs::TextWriting::wrote_most), unfolding(crate::specs::Listing::listings))]
fn put_end(s: &mut [u8], at: usize, end: Instant) -> usize
    requires { at + 10 ≤ length s.old }
    ensures { Wrote 10 s.old at (end_of end) s.new result }
{
    if end.is_none() {
        return put_letters(s, at, b"-");
    }
    put_digits(s, at, 10, end.0)
}

// Writes the begin of a period, and its end or `-`, and a space behind each.
fn put_period(s: &mut [u8], at: usize, period: Period) -> usize
    requires { at + 22 ≤ length s.old }
    ensures { Wrote 22 s.old at
        ((decimal_of period.begin.0 ++ (32 ∷ [])) ++ (end_of period.end ++ (32 ∷ [])))
        s.new result }
{
    let first = put_number(s, at, period.begin.0);
    let second = put_end(s, first, period.end);
    put_letters(s, second, b" ")
}

// Writes the forms of a record's eight properties of `stride` bytes each, a digit for each.
fn put_forms(s: &mut [u8], at: usize, record: &[u8], stride: usize) -> usize
    requires { (at + 8 ≤ length s.old) × ((0 < stride) × (stride ≤ 4096)) }
    ensures { Wrote 8 s.old at (map form_of (parts_of stride «record».now)) s.new result }
{
    let mut end = at;
    for i in 0..8 {
        end = put_letters(s, end, &[b'0' + byte(record, 32 + i * stride) % 10]);
    }
    end
}

// Writes the line of a record.
fn put_line(s: &mut [u8], at: usize, record: &[u8], stride: usize) -> usize
    requires { (at + 42 ≤ length s.old) × ((0 < stride) × (stride ≤ 4096)) }
    ensures { Wrote 42 s.old at (line_of stride «record».now) s.new result }
{
    let first = put_number(s, at, key_of(record).sequence.0);
    let second = put_period(s, first, period_of(record));
    let third = put_forms(s, second, record, stride);
    put_letters(s, third, b"\n")
}

// Writes the lines of a table's records.
fn put_lines(s: &mut [u8], at: usize, table: &[u8]) -> usize
    requires { Whole table.now × (at + 42 * count_of table.now ≤ length s.old) }
    ensures { Wrote (42 * count_of table.now) s.old at
        (joined (map (line_of (stride_of table.now))
        (records_of (record_size (stride_of table.now)) table.now)))
        s.new result }
{
    let stride = stride_of(table);
    let size = record_size(table);
    let mut end = at;
    for i in 0..count_of(table) as usize {
        end = put_line(s, end, record_at(table, size, i), stride);
    }
    end
}

// Writes the text of a derived table: how many records it has, and their lines.
pub(crate) fn put_derived(s: &mut [u8], table: &[u8]) -> usize
    requires { Whole table.now × (10771 ≤ length s.old) }
    ensures { Wrote 10771 s.old 0
        (text_of (Ok (count_of table.now)) (stride_of table.now)
        (records_of (record_size (stride_of table.now)) table.now))
        s.new result }
{
    let first = put_letters(s, 0, b"derived ");
    let second = put_digits(s, first, 10, count_of(table) as u32);
    let third = put_letters(s, second, b"\n");
    put_lines(s, third, table)
}

// Writes the text of a refusal: its number.
pub(crate) fn put_refused(s: &mut [u8], refusal: Refusal) -> usize
    requires { 19 ≤ length s.old }
    ensures { Wrote 19 s.old 0 (text_of (Err (number refusal)) 0 []) s.new result }
{
    let first = put_letters(s, 0, b"refused ");
    let second = put_digits(s, first, 10, refusal.number() as u32);
    put_letters(s, second, b"\n")
}
