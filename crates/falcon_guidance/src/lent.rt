// Lent lists of floats: what they hold item by item, and how their items are stored.
ghost use Rattle.std.specs.Prelude.{◌≡◌, ℕ, ◌+◌, ◌*◌, ◌/◌, ◌<◌, min, List, Float, length, take, drop, replicate};
ghost use Rattle.std.proofs.Common.{lit<};
ghost use Rattle.falcon_state.specs.Point.{point_numbers_of, point_at_of};
ghost use Rattle.falcon_state.specs.Zone.{zone_numbers_of, zone_at_of};
ghost use Rattle.falcon_guidance.specs.Lent.{filled_of};
ghost use Rattle.falcon_state.proofs.Chunks.{point_chunk, zone_chunk};

use falcon_state::{Place, Point, Zone};

// An item of a lent list, which is so many floats in a row.
pub(crate) trait Lent: Place {
    // How many floats are an item.
    const NUMBERS: usize;

    ghost NUMBERS: { ℕ };

    // Item i of a list.
    ghost at: { List Float → ℕ → Self };

    // The item of these floats.
    fn from_numbers(numbers: &[f32]) -> Self
        requires { length numbers.now ≡ NUMBERS }
        ensures { result ≡ at numbers.now 0 };

    // An item has numbers.
    ghost some: { 0 < NUMBERS };

    // Item i is read of its own floats alone.
    ghost chunk: { (l : List Float) (i : ℕ) → at (take NUMBERS (drop (i * NUMBERS) l)) 0 ≡ at l i };
}

impl Lent for Point {
    const NUMBERS: usize = Point::NUMBERS;

    ghost NUMBERS = { point_numbers_of };

    ghost at = { point_at_of };

    ghost some = { lit< tt };

    ghost chunk = { point_chunk };

    #[tactic(auto, unfolding(falcon_state::specs::Point::point_at_of))]
    fn from_numbers(numbers: &[f32]) -> Point {
        Point::new(numbers[0], numbers[1], numbers[2])
    }
}

impl Lent for Zone {
    const NUMBERS: usize = Zone::NUMBERS;

    ghost NUMBERS = { zone_numbers_of };

    ghost at = { zone_at_of };

    ghost some = { lit< tt };

    ghost chunk = { zone_chunk };

    #[tactic(auto, unfolding(falcon_state::specs::Zone::zone_at_of))]
    fn from_numbers(numbers: &[f32]) -> Zone {
        Zone {
            center: Point::new(numbers[0], numbers[1], numbers[2]),
            radius: numbers[3],
        }
    }
}

// How many items of a lent list these places take.
pub(crate) fn kept_count<T: Lent>(lent: &[f32], places: usize) -> usize
    ensures { result ≡ min (length lent.now / T.NUMBERS) places }
{
    (lent.len() / T::NUMBERS).min(places)
}

// The items of a lent list in their places, as many as there are, and what an unused place holds in every other.
#[tactic(auto, unfolding(crate::specs::Lent::filled_of))]
pub(crate) fn stored<T: Lent, const N: usize>(lent: &[f32]) -> [T; N]
    ensures { result ≡ filled_of (T.at lent.now) (min (length lent.now / T.NUMBERS) N) (replicate N T.empty) }
{
    let mut items = [T::unused(); N];
    let mut chunks = lent.chunks_exact(T::NUMBERS);
    // No zip: a proof knows nothing of the places after a loop that zips their iter_mut.
    for place in items.iter_mut() {
        if let Some(numbers) = chunks.next() {
            *place = T::from_numbers(numbers);
        }
    }
    items
}
