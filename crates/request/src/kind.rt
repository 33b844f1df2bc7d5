// The sixteen kinds of request.
ghost use Rattle.std.specs.Prelude.{◌≡◌, ◌<◌};
ghost use Rattle.request.specs.Table.{number_of, kind_of};

#[derive(Clone, Copy, Debug, PartialEq, Eq)]
pub enum Kind {
    LastCommitted = 0,
    Base = 1,
    Write = 2,
    AddDelta = 3,
    Estimate = 4,
    Remove = 5,
    Fetch = 6,
    Materialize = 7,
    GroupBase = 8,
    Exchange = 9,
    GroupWrite = 10,
    GroupEstimate = 11,
    GroupRemove = 12,
    GroupFetch = 13,
    GroupSize = 14,
    Finalize = 15,
}

impl Kind {
    // The kind of a head's four bits.
    #[tactic(auto, unfolding(crate::specs::Table::kind_of, crate::specs::Table::row_of, crate::specs::Table::table, crate::specs::Table::row))]
    pub fn of(number: usize) -> Kind
        requires four_bits { number < 16 }
        ensures kind { result ≡ kind_of number }
    {
        match number {
            0 => Kind::LastCommitted,
            1 => Kind::Base,
            2 => Kind::Write,
            3 => Kind::AddDelta,
            4 => Kind::Estimate,
            5 => Kind::Remove,
            6 => Kind::Fetch,
            7 => Kind::Materialize,
            8 => Kind::GroupBase,
            9 => Kind::Exchange,
            10 => Kind::GroupWrite,
            11 => Kind::GroupEstimate,
            12 => Kind::GroupRemove,
            13 => Kind::GroupFetch,
            14 => Kind::GroupSize,
            _ => Kind::Finalize,
        }
    }

    pub fn number(self) -> usize
        ensures number { result ≡ number_of self }
    {
        self as usize
    }
}
