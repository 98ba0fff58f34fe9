//! What numbers add up to, each times a weight of its own, without a product for each.

ghost use Rattle.std.specs.Prelude.{◌≡◌, ◌+◌, ◌%◌, ◌^◌, List, [], ◌∷◌, ℕ};
ghost use Rattle.c_numbers.specs.CheckWord.{weighted, AreSumsOf};

/// What numbers add up to, by 64 bits: as they are, and each times its place.
///
/// They are taken from the last one on: a first one moves each of those behind it by one place, so
/// that it takes two additions.
#[derive(Clone, Copy, Drop)]
pub struct Sums {
    sum: u64,
    places: u64,
}

impl Sums {
    /// Those of no numbers.
    #[inline]
    pub fn none() -> Sums
        ensures { AreSumsOf result [] }
    {
        Sums { sum: 0, places: 0 }
    }

    /// Those of the same numbers behind a first one.
    #[inline]
    pub fn with_first(self, number: u64) -> Sums
        ensures { (ns : List ℕ) → AreSumsOf self ns → AreSumsOf result (number ∷ ns) }
    {
        Sums {
            sum: self.sum.wrapping_add(number),
            places: self.places.wrapping_add(self.sum),
        }
    }

    /// What the numbers add up to, the first one times this weight, each other times two more.
    #[inline]
    pub fn weighed(self, weight: u64) -> u64
        ensures { (ns : List ℕ) → AreSumsOf self ns → result ≡ weighted weight ns % 2 ^ 64 }
    {
        weight
            .wrapping_mul(self.sum)
            .wrapping_add(self.places.wrapping_mul(2))
    }

    /// How much more other numbers then add up to.
    #[inline]
    pub fn change(self, weight: u64, after: Sums) -> u64
        ensures { (ms ns : List ℕ) → AreSumsOf self ms → AreSumsOf after ns
            → (weighted weight ms + result) % 2 ^ 64 ≡ weighted weight ns % 2 ^ 64 }
    {
        let sum = after.sum.wrapping_sub(self.sum);
        let places = after.places.wrapping_sub(self.places);
        weight
            .wrapping_mul(sum)
            .wrapping_add(places.wrapping_mul(2))
    }
}
