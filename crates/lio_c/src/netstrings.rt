//! Netstrings: items as bytes, each with its length before it, as `5:hello,`.
//!
//! A netstring is read loosely: what would stand in it is taken, and then printed and compared, so
//! that no other spelling is read.

ghost use Rattle.std.specs.Prelude.{◌≡◌, ◌≢◌, ◌≤◌, ◌<◌, ◌^◌, ◌++◌, ℕ, List, decimal, drop};
ghost use Rattle.std.specs.Prelude.{length, take, IfOk, IfErr, OnOk, MatchOption};
ghost use Rattle.std.specs.List.{prefix_len};
ghost use Rattle.lio_c.specs.Netstrings.{NoneBegins, netstring, netstrings};
ghost use Rattle.lio_c.specs.Netstrings.{is_before_colon};
ghost use Rattle.lio_c.specs.Reading.{ItemsRefuse};

use itoa::Buffer;
use lio_clauses::NoMemory;
use lio_values::{List, Text, print_number};
use std::alloc::Global;
use std::str;

/// Why bytes aren't netstrings.
pub(crate) enum ItemsFault {
    /// They are up to the byte at this place alone.
    Broken(usize),
    /// No memory was left.
    NoMemory,
}

impl From<NoMemory> for ItemsFault {
    ghost use Rattle.std.specs.Prelude.{◌≡◌};
    ghost use Rattle.lio_c.specs.declared.netstrings.ItemsFault.TheVariants.{NoMemory as without_memory};

    ghost from_gives = { λ _ fault. fault ≡ without_memory };

    fn from(_cause: NoMemory) -> ItemsFault {
        ItemsFault::NoMemory
    }
}

/// The number that digits are, or 0 where they are none of 64 bits.
fn number_of(digits: &[u8]) -> u64
    ensures { (number : ℕ) → number < 2 ^ 64 → digits.now ≡ decimal number → result ≡ number }
{
    match str::from_utf8(digits) {
        Ok(digits) => digits.parse::<u64>().unwrap_or(0),
        Err(_) => 0,
    }
}

/// How many bytes stand before the first `:`.
fn digits_len(bytes: &[u8]) -> usize
    ensures len { result ≡ prefix_len is_before_colon bytes.now }
    ensures within { result ≤ length bytes.now }
    ensures fits { length bytes.now < 2 ^ 64 }
{
    let most = bytes.len();
    for (place, &byte) in bytes.iter().enumerate() {
        if byte == b':' {
            return place;
        }
    }
    most
}

/// The bytes behind so many, or none where there are fewer.
fn behind_first(bytes: &[u8], count: usize) -> &[u8]
    ensures { result.now ≡ drop count bytes.now }
{
    let count = count.min(bytes.len());
    let (_, behind) = bytes.split_at(count);
    behind
}

/// So many bytes, or all where there are fewer.
fn first_of(bytes: &[u8], count: usize) -> &[u8]
    ensures { result.now ≡ take count bytes.now }
{
    let count = count.min(bytes.len());
    let (front, _) = bytes.split_at(count);
    front
}

/// The item of the first netstring, where one stands there.
fn first_item(bytes: &[u8]) -> &[u8]
    ensures { (item rest : List ℕ) → bytes.now ≡ netstring item ++ rest → result.now ≡ item }
{
    let len = digits_len(bytes);
    let count = number_of(first_of(bytes, len));
    first_of(behind_first(behind_first(bytes, len), 1), count as usize)
}

/// What stands behind a front, where bytes begin with it.
fn behind<'a>(bytes: &'a [u8], front: &[u8]) -> Option<&'a [u8]>
    ensures { MatchOption result ((rest : List ℕ) → bytes.now ≢ front.now ++ rest)
        (λ rest. bytes.now ≡ front.now ++ rest.now) }
{
    if bytes.len() < front.len() {
        return None;
    }
    let (first, rest) = bytes.split_at(front.len());
    if first == front { Some(rest) } else { None }
}

/// What stands behind the netstring of an item, where bytes begin with it.
fn behind_item<'a>(bytes: &'a [u8], item: &[u8]) -> Option<&'a [u8]>
    ensures { MatchOption result ((rest : List ℕ) → bytes.now ≢ netstring item.now ++ rest)
        (λ rest. bytes.now ≡ netstring item.now ++ rest.now) }
{
    let mut buffer = Buffer::new();
    let bytes = behind(bytes, buffer.format(item.len() as u64).as_bytes())?;
    let bytes = behind(bytes, b":")?;
    let bytes = behind(bytes, item)?;
    behind(bytes, b",")
}

/// The item of the first netstring, and what stands behind it, where one stands there.
fn next_item(bytes: &[u8]) -> Option<(&[u8], &[u8])>
    ensures { MatchOption result (NoneBegins bytes.now)
        (λ it. bytes.now ≡ netstring it.0.now ++ it.1.now) }
{
    let item = first_item(bytes);
    let rest = behind_item(bytes, item)?;
    Some((item, rest))
}

/// The items of which bytes are the netstrings.
pub(crate) fn read_items(alloc: Global, bytes: &[u8]) -> Result<List<Text>, ItemsFault>
    ensures ok { IfOk result (λ items. bytes.now ≡ netstrings items) }
    ensures err { IfErr result (ItemsRefuse bytes.now) }
{
    let mut items = List::new(alloc);
    let mut rest = bytes;
    while !rest.is_empty() {
        let Some((item, behind)) = next_item(rest) else {
            return Err(ItemsFault::Broken(bytes.len() - rest.len()));
        };
        items.push(Text::of(alloc, item)?)?;
        rest = behind;
    }
    Ok(items)
}

/// Appends the netstring of an item.
pub(crate) fn print_item(out: &mut Vec<u8>, item: &[u8]) -> Result<(), NoMemory>
    ensures { OnOk result (out.new.items ≡ out.old.items ++ netstring item.now) }
{
    print_number(out, item.len() as u64)?;
    out.extend_from_slice(b":")?;
    out.extend_from_slice(item)?;
    out.extend_from_slice(b",")?;
    Ok(())
}
