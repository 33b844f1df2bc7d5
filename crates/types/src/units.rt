// A store's units, and lack of them: the one place where it is decided.
ghost use Rattle.std.specs.Prelude.{◌≡◌, length};
ghost use Rattle.types.specs.Refusal.{result_number};
ghost use Rattle.types.specs.Units.{units_in, lack_of};

use super::refusal::Refusal;

// How many units a store has.
#[tactic(auto, unfolding(crate::specs::Units::units_in))]
pub fn units(s: &[u32]) -> usize
    ensures units { result ≡ units_in (length s.now) }
{
    (s.len() / 32).min(4096)
}

// For the units that a store would hold and those that it has.
#[tactic(auto, unfolding(crate::specs::Units::lack_of))]
pub fn enough(held: usize, slots: usize) -> Result<(), Refusal>
    ensures lack { result_number result ≡ lack_of held slots }
{
    if slots < held {
        return Err(Refusal::UnitsExhausted);
    }
    Ok(())
}
