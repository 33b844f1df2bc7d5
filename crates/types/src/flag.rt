// The flag of an entry: done, or an estimate, which a read waits for.
ghost use Rattle.std.specs.Prelude.{◌≡◌};
ghost use Rattle.types.specs.Flag.{flag_word};

#[derive(Clone, Copy, Debug, PartialEq, Eq)]
pub enum Flag {
    Done = 0,
    Estimate = 1,
}

// The stores keep a flag as a word.
impl From<Flag> for u32 {
    ghost from_gives = { λ flag word. word ≡ flag_word flag };

    fn from(flag: Flag) -> u32 {
        flag as u32
    }
}
