// Refusal 4: whether the index of a request is one that is served.
ghost use Rattle.std.specs.Prelude.{◌≡◌, ◌<◌, length};
ghost use Rattle.request.specs.Request.{row_at, index_ok};
ghost use Rattle.request.specs.Rows.{layout};

use super::table::Row;

pub fn index_ok(t: &[u32], row: Row) -> bool
    requires row { row ≡ layout (row_at t.now) }
    requires whole { (row_at t.now).fixed < length t.now }
    ensures served { result ≡ index_ok t.now }
{
    match row.index {
        Some(field) => t[field.place] <= field.last,
        None => true,
    }
}
