// What a request asks.
ghost use Rattle.std.specs.Prelude.{◌≡◌, ◌<◌, length};
ghost use Rattle.request.specs.Table.{number_of, row_of};
ghost use Rattle.request.specs.Fields.{asked_by};

use super::kind::Kind;
use super::places::{
    BASE_SET, BASE_VALUE, BASE_VALUES, DELTA, EXCHANGE_VALUE, INCARNATION, INDEX, KEY, TAG,
    TAGGED_INDEX, WRITE_SET, WRITE_VALUE, WRITE_VALUES,
};
use super::set::Set;

// A request by its kind, with the fields that the kind has. Values and deltas stay in the words of the request: the field is the place where they begin.
#[derive(Clone, Copy)]
pub enum Request {
    LastCommitted {
        key: u32,
    },
    Base {
        key: u32,
        value: usize,
    },
    Write {
        key: u32,
        index: u32,
        incarnation: u32,
        value: usize,
    },
    AddDelta {
        key: u32,
        index: u32,
        delta: usize,
    },
    Estimate {
        key: u32,
        index: u32,
    },
    Remove {
        key: u32,
        index: u32,
    },
    Fetch {
        key: u32,
        index: u32,
    },
    Materialize {
        key: u32,
        index: u32,
    },
    GroupBase {
        key: u32,
        set: Set,
        values: usize,
    },
    Exchange {
        key: u32,
        tag: u32,
        value: usize,
    },
    GroupWrite {
        key: u32,
        index: u32,
        incarnation: u32,
        set: Set,
        values: usize,
    },
    GroupEstimate {
        key: u32,
        index: u32,
    },
    GroupRemove {
        key: u32,
        index: u32,
    },
    GroupFetch {
        key: u32,
        tag: u32,
        index: u32,
    },
    GroupSize {
        key: u32,
        index: u32,
    },
    Finalize {
        key: u32,
        index: u32,
    },
}

// The request of a kind whose fixed words are there.
#[tactic(auto, unfolding(crate::specs::Fields::asked_by, crate::specs::Fields::asked_as, crate::specs::Fields::set_in, crate::specs::Table::row_of, crate::specs::Table::table, crate::specs::Table::row))]
pub fn request_of(t: &[u32], kind: Kind) -> Request
    requires whole { (row_of (number_of kind)).fixed < length t.now }
    ensures asked { result ≡ asked_by kind t.now }
{
    let key = t[KEY];
    match kind {
        Kind::LastCommitted => Request::LastCommitted { key },
        Kind::Base => Request::Base {
            key,
            value: BASE_VALUE,
        },
        Kind::Write => Request::Write {
            key,
            index: t[INDEX],
            incarnation: t[INCARNATION],
            value: WRITE_VALUE,
        },
        Kind::AddDelta => Request::AddDelta {
            key,
            index: t[INDEX],
            delta: DELTA,
        },
        Kind::Estimate => Request::Estimate {
            key,
            index: t[INDEX],
        },
        Kind::Remove => Request::Remove {
            key,
            index: t[INDEX],
        },
        Kind::Fetch => Request::Fetch {
            key,
            index: t[INDEX],
        },
        Kind::Materialize => Request::Materialize {
            key,
            index: t[INDEX],
        },
        Kind::GroupBase => Request::GroupBase {
            key,
            set: Set {
                low: t[BASE_SET],
                high: t[BASE_SET + 1],
            },
            values: BASE_VALUES,
        },
        Kind::Exchange => Request::Exchange {
            key,
            tag: t[TAG],
            value: EXCHANGE_VALUE,
        },
        Kind::GroupWrite => Request::GroupWrite {
            key,
            index: t[INDEX],
            incarnation: t[INCARNATION],
            set: Set {
                low: t[WRITE_SET],
                high: t[WRITE_SET + 1],
            },
            values: WRITE_VALUES,
        },
        Kind::GroupEstimate => Request::GroupEstimate {
            key,
            index: t[INDEX],
        },
        Kind::GroupRemove => Request::GroupRemove {
            key,
            index: t[INDEX],
        },
        Kind::GroupFetch => Request::GroupFetch {
            key,
            tag: t[TAG],
            index: t[TAGGED_INDEX],
        },
        Kind::GroupSize => Request::GroupSize {
            key,
            index: t[INDEX],
        },
        Kind::Finalize => Request::Finalize {
            key,
            index: t[INDEX],
        },
    }
}
