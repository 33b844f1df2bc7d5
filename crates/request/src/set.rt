// A set of tags, 0 to 63, bit n for tag n. The values that follow a set stand in rising order of
// their tags: the count of ones says how many, and trailing zeros give the next tag.
ghost use Rattle.std.specs.Prelude.{◌≡◌, [], ◌∷◌, ◌-◌, ◌^◌, ◌≤◌, ◌<◌, length, IfNone, IfSome};
ghost use Rattle.std.specs.Int.Count.{count_trailing_zeros};
ghost use Rattle.request.specs.Set.{tags_of};

#[derive(Clone, Copy)]
pub struct Set {
    pub low: u32,
    pub high: u32,
}

// The word without its lowest one.
fn without_lowest(word: u32) -> u32
    requires some { 0 < word }
    ensures cleared { result ≡ word - 2 ^ count_trailing_zeros 32 word }
{
    word - (1 << u32::trailing_zeros(word))
}

impl Set {
    pub fn len(self) -> usize
        ensures counted { result ≡ length (tags_of self.low self.high) }
    {
        (u32::count_ones(self.low) + u32::count_ones(self.high)) as usize
    }

    // The least tag, and the set without it.
    pub fn split_first(self) -> Option<(u32, Set)>
        ensures none { IfNone result (tags_of self.low self.high ≡ []) }
        ensures some { IfSome result (λ x. tags_of self.low self.high ≡ x.0 ∷ tags_of x.1.low x.1.high) }
        ensures bound { IfSome result (λ x. x.0 ≤ 63) }
    {
        let low = self.low;
        let high = self.high;
        if low > 0 {
            let tag = u32::trailing_zeros(low);
            let low = without_lowest(low);
            return Some((tag, Set { low, high }));
        }
        if high > 0 {
            let tag = 32 + u32::trailing_zeros(high);
            let high = without_lowest(high);
            return Some((tag, Set { low, high }));
        }
        None
    }
}
