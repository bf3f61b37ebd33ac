ghost use Rattle.std.specs.Prelude.{◌≡◌, ◌<◌, length};
ghost use Rattle.divide.specs.Remainders.{floors, rests, spare, precedes, rank, remainders};
ghost use Rattle.divide.specs.Rests.{remainders_exact};

use crate::divider::Divider;
use crate::refusal::DivideRefusal;
use crate::sharing::{MOST_WEIGHTS, Sharing};
use std::cmp::Reverse;

// Each share is rounded down; the units left over go one each to the largest remainders, ties to the lower place.
#[derive(Clone, Copy)]
pub struct Remainders;

// Writes each weight's part of the total, rounded down, and its remainder.
fn round_down(sharing: &Sharing, parts: &mut [u64], left: &mut [u64])
    requires parts_long { length parts.old ≡ length sharing.now.weights.now }
    requires left_long { length left.old ≡ length sharing.now.weights.now }
    ensures parts { parts.new ≡ floors sharing.now.total sharing.now.weights.now }
    ensures left { left.new ≡ rests sharing.now.total sharing.now.weights.now }
{
    for (place, weight) in sharing.weights.iter().enumerate() {
        let weight = u64::from(*weight);
        parts[place] = sharing.part(weight);
        left[place] = sharing.rest(weight);
    }
}

// The units of the total that the rounded parts leave over.
fn left_over(sharing: &Sharing, parts: &[u64]) -> u64
    requires { parts.now ≡ floors sharing.now.total sharing.now.weights.now }
    ensures { result ≡ spare sharing.now.total sharing.now.weights.now }
{
    let total = sharing.total;
    let given: u64 = parts.iter().sum();
    total - given
}

// Whether place `j` with the remainder `a` comes before place `k` with the remainder `b`.
fn comes_before(a: u64, j: usize, b: u64, k: usize) -> bool
    ensures { result ≡ precedes a j b k }
{
    (Reverse(a), j) < (Reverse(b), k)
}

// How many places come before a place by their remainders.
fn places_before(left: &[u64], place: usize) -> usize
    requires { place < length left.now }
    ensures { result ≡ rank left.now place }
{
    let own = left[place];
    left.iter()
        .enumerate()
        .map(|(other, rest)| usize::from(comes_before(*rest, other, own, place)))
        .sum()
}

// Writes the shares by largest remainders.
fn fill_remainders(sharing: &Sharing, out: &mut [u64])
    requires { length out.old ≡ length sharing.now.weights.now }
    ensures { out.new ≡ remainders sharing.now.total sharing.now.weights.now }
{
    let mut room = [0; MOST_WEIGHTS];
    let left = &mut room[..sharing.weights.len()];
    round_down(sharing, out, left);
    let units = left_over(sharing, out);
    for (place, share) in out.iter_mut().enumerate() {
        if (places_before(left, place) as u64) < units {
            *share += 1;
        }
    }
}

impl Divider for Remainders {
    ghost shares = { λ _ t ws. remainders t ws };

    ghost exact = { λ d t ws fine. remainders_exact t ws fine };

    fn divide(&self, total: u64, weights: &[u32], out: &mut [u64]) -> Result<(), DivideRefusal> {
        let sharing = Sharing::new(total, weights, out.len())?;
        if total == 0 {
            out.fill(0);
        } else {
            fill_remainders(&sharing, out);
        }
        Ok(())
    }
}
