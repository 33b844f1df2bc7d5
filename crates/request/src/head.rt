// The head of a request and its row of the table: decoded once, and handed on to the parts of the check that ask for them.
ghost use Rattle.std.specs.Prelude.{◌≡◌, ◌<◌, length};
ghost use Rattle.request.specs.Fields.{head_at};

use super::kind::Kind;
use super::table;
use super::table::Row;
use types::response;

#[derive(Clone, Copy)]
pub struct Head {
    pub kind: Kind,
    // How many words follow the head.
    pub count: usize,
    pub row: Row,
}

pub fn head_of(t: &[u32]) -> Head
    requires some { 0 < length t.now }
    ensures head { result ≡ head_at t.now }
{
    let kind = Kind::of(response::kind_in(t[0]));
    let count = response::count_in(t[0]);
    let row = table::row_of(kind);
    Head { kind, count, row }
}
