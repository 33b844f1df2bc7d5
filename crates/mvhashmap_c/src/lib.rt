// The call for C and Rust, under plain names: `rt lib` builds it, mvhashmap.h declares it.
#![tactic(auto)]

ghost use Rattle.std.specs.Prelude.{◌≡◌, true};
ghost use Rattle.types.specs.Refusal.{result_number};
ghost use Rattle.mvhashmap.specs.Call.{stores, lent, sound, Calls};

use mvhashmap::call;
use types::refusal::Refusal;

// The number of a call's result: 0, or that of its refusal.
fn number_of(called: Result<(), Refusal>) -> u32
    ensures number { result ≡ result_number called }
{
    called.map_or_else(u32::from, |()| 0)
}

// A call over any words.
#[unsafe(no_mangle)]
pub extern "C" fn mvhashmap_call(
    t: &[u32],
    data: &mut [u32],
    group: &mut [u32],
    out: &mut [u32],
) -> u32
    ensures called { Calls t.now (lent «data».old group.old out.old) result (lent «data».new group.new out.new) }
{
    number_of(call::call(t, data, group, out))
}

// A call by a caller who knows that the stores are sound: cleared words, or what a call left of such.
#[unsafe(no_mangle)]
pub extern "C" fn mvhashmap_inner_call(
    t: &[u32],
    data: &mut [u32],
    group: &mut [u32],
    out: &mut [u32],
) -> u32
    requires sound { sound (stores «data».old group.old) ≡ true }
    ensures called { Calls t.now (lent «data».old group.old out.old) result (lent «data».new group.new out.new) }
{
    number_of(call::inner_call(t, data, group, out))
}
