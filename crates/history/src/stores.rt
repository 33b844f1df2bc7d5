// The two stores that every call is lent.
ghost use Rattle.std.specs.Prelude.{◌≡◌, ◌<◌, ◌≤◌, true, length, slice_index, replicate};
ghost use Rattle.types.specs.Refusal.{result_number};
ghost use Rattle.types.specs.Response.{count_in, answer_width};
ghost use Rattle.mvhashmap.specs.Call.{stores, sound};

use mvhashmap::call;
use types::refusal::Refusal;

#[derive(Drop)]
pub struct Stores<const N: usize> {
    pub data: [u32; N],
    pub group: [u32; N],
    ghost valid: { sound (stores «data» group) ≡ true },
}

impl<const N: usize> Stores<N> {
    ghost use Rattle.mvhashmap.specs.Call.{lent, Calls};

    pub fn new() -> Self
        ensures words { result.«data» ≡ replicate N 0 }
        ensures group { result.group ≡ replicate N 0 }
    {
        Stores {
            data: [0; N],
            group: [0; N],
        }
    }

    pub fn call(&mut self, request: &[u32], answer: &mut [u32]) -> Result<(), Refusal>
        ensures called { Calls request.now (lent self.old.«data» self.old.group answer.old) (result_number result) (lent self.new.«data» self.new.group answer.new) }

        // What is printed of it: an answer no longer than its slice.
        ensures few { answer_width ≤ length answer.old → result_number result ≡ 0 → count_in (slice_index answer.new 0) < answer_width }
    {
        call::inner_call(request, &mut self.data, &mut self.group, answer)
    }
}
