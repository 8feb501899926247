// Sets of numbers in lent words: number i is bit i % 32 of word i / 32. Nothing here is refused: what a call needs of lengths and
// ranges stands in its `requires`.
#![tactic(auto)]

ghost use Rattle.std.specs.Prelude.{◌≡◌, ◌-◌, ◌*◌, ◌^◌, ◌<◌, ◌≤◌, min, length};
ghost use mathlib.Core.List.{zip_with};
ghost use Rattle.std.specs.Int.Bits.{bit_or};
ghost use Rattle.std.specs.Int.Count.{count_trailing_zeros};
ghost use Rattle.bits.specs.Bits.{member, packed, full, low_mask, insert, less_word, lowest_in_both, meets, none_from};

// Whether i is in the set.
#[tactic(auto, unfolding(crate::specs::Bits::member))]
pub fn has(ws: &[u32], i: usize) -> bool
    requires { i < 32 * length ws.now }
    ensures { result ≡ member ws.now i }
{
    (ws[i / 32] >> (i % 32)) % 2 == 1
}

// The word whose one number is i.
pub fn bit(i: usize) -> u32
    requires { i < 32 }
    ensures { result ≡ 2 ^ i }
{
    1 << i
}

// Puts i into the set.
#[tactic(auto, unfolding(crate::specs::Bits::insert))]
pub fn put(ws: &mut [u32], i: usize)
    requires { i < 32 * length ws.old }
    ensures { ws.new ≡ insert ws.old i }
{
    ws[i / 32] |= bit(i % 32);
}

// Puts every number of src into dst.
pub fn union_into(dst: &mut [u32], src: &[u32])
    requires { length dst.old ≡ length src.now }
    ensures { dst.new ≡ zip_with bit_or dst.old src.now }
{
    // kept: src by an index, here and in minus_into: of a loop over iter_mut().zip(src) a proof does not learn what dst holds behind it
    for (i, d) in dst.iter_mut().enumerate() {
        *d |= src[i];
    }
}

// Takes every number of src out of dst.
pub fn minus_into(dst: &mut [u32], src: &[u32])
    requires { length dst.old ≡ length src.now }
    ensures { dst.new ≡ zip_with less_word dst.old src.now }
{
    // kept: apart from union_into: one function over a closure for both takes a ghost value and four clauses, 13 lines for 6
    for (i, d) in dst.iter_mut().enumerate() {
        *d ^= *d & src[i];
    }
}

// The lowest number in a word; 32 where it has none.
// kept: 32 and no Option, as std's `trailing_zeros`; a cast, since std has no `From` of a u32 for usize.
pub fn lowest_bit(w: u32) -> usize
    ensures is { result ≡ count_trailing_zeros 32 w }
    ensures within { result ≤ 32 }
{
    w.trailing_zeros() as usize
}

// The lowest number in both sets, where there is one.
pub fn lowest_common(a: &[u32], b: &[u32]) -> Option<usize>
    requires small { 32 * length a.now < 2 ^ 64 }
    ensures { result ≡ lowest_in_both a.now b.now }
{
    let i = a.iter().zip(b).position(|(x, y)| x & y != 0)?;
    Some(32 * i + lowest_bit(a[i] & b[i]))
}

// Whether some number is in both sets.
pub fn meets(a: &[u32], b: &[u32]) -> bool
    ensures { result ≡ meets a.now b.now }
{
    a.iter().zip(b).any(|(x, y)| x & y != 0)
}

// The word of all numbers below n.
pub fn low_mask(n: usize) -> u32
    requires { n ≤ 32 }
    ensures { result ≡ low_mask n }
{
    if n < 32 { bit(n) - 1 } else { u32::MAX }
}

// The first word of the set of all numbers below n.
// kept: beside `low_mask`: with `low_mask(n.min(32))` in its place `fill_below` takes 1.3 to 2 times as long, by where the linker puts it.
fn word_below(n: usize) -> u32
    ensures { result ≡ low_mask (min n 32) }
{
    if n < 32 { low_mask(n) } else { u32::MAX }
}

// Makes ws the set of all numbers below n.
pub fn fill_below(ws: &mut [u32], n: usize)
    ensures { ws.new ≡ packed (length ws.old) (full n) }
{
    let mut left = n;
    for w in ws {
        *w = word_below(left);
        left = left.saturating_sub(32);
    }
}

// Whether no number from n on is in the set: n is the count that it ranges over.
pub fn no_bit_from(ws: &[u32], n: usize) -> bool
    ensures { result ≡ none_from n ws.now }
{
    let mut left = n;
    for &w in ws {
        if word_below(left) < w {
            return false;
        }
        left = left.saturating_sub(32);
    }
    true
}

// Whether the set is empty.
pub fn is_empty(ws: &[u32]) -> bool
    ensures { result ≡ none_from 0 ws.now }
{
    no_bit_from(ws, 0)
}
