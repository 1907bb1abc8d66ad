// The listing of the derived baselines.
ghost use Rattle.std.specs.Prelude.{◌≡◌, ◌≤◌, length};
ghost use Rattle.text.specs.Listing.{listing_of, said_of, put_of, listing_reply, after_put};
ghost use Rattle.text.specs.Wrote.{Wrote};

use crate::lines::{put_derived, put_refused};
use baselines::derive;
use octets::put;

// The length that a text needs, where the buffer is shorter.
#[derive(Clone, Copy, Debug, PartialEq, Eq)]
pub struct Needs(pub usize);

// Writes the listing of a permanent table's derived baselines, and answers its length.
fn put_listing(s: &mut [u8], permanent: &[u8]) -> usize
    requires { 10771 ≤ length s.old }
    ensures { Wrote 10771 s.old 0 (listing_of permanent.now) s.new result }
{
    let mut derived = [0u8; 57376];
    match derive(permanent, &mut derived) {
        Ok(_) => put_derived(s, &derived),
        Err(refusal) => put_refused(s, refusal),
    }
}

// Puts what is said into a buffer, and answers its length; or changes nothing, where the buffer is shorter.
fn put_said(said: &[u8], text: &mut [u8]) -> Result<usize, Needs>
    ensures answer { result ≡ put_of said.now text.old }
    ensures buffer { text.new ≡ after_put result said.now text.old }
{
    if text.len() < said.len() {
        return Err(Needs(said.len()));
    }
    put(text, 0, said);
    Ok(said.len())
}

// The listing of a permanent table's derived baselines: how many they are, and a line for each; or the
// number of the refusal. Answers its length; or, with every byte as it was, the length that it needs.
pub fn list(permanent: &[u8], text: &mut [u8]) -> Result<usize, Needs>
    ensures answer { listing_reply result ≡ listing_reply (put_of (listing_of permanent.now) text.old) }
    ensures buffer { text.new ≡ after_put result (listing_of permanent.now) text.old }
{
    let mut said = [0u8; 10771];
    let end = put_listing(&mut said, permanent);
    put_said(&said[0..end], text)
}

// What the listing program says of its input: the listing, or `too long` where it has over 57,376 bytes.
pub fn say(input: &[u8], text: &mut [u8]) -> Result<usize, Needs>
    ensures answer { listing_reply result ≡ listing_reply (put_of (said_of input.now) text.old) }
    ensures buffer { text.new ≡ after_put result (said_of input.now) text.old }
{
    if 57376 < input.len() {
        return put_said(b"too long\n", text);
    }
    list(input, text)
}
