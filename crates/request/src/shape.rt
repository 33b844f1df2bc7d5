// Refusal 2: whether a request has the words that its kind and its tail ask for.
ghost use Rattle.std.specs.Prelude.{◌≡◌, ◌<◌, length};
ghost use Rattle.request.specs.Request.{row_at, count_ok, shape_ok};
ghost use Rattle.request.specs.Fields.{head_at};

use super::head::Head;
use super::set::Set;
use super::table::Tail;

// Whether the head counts the words of its kind. A set is the last two of the fixed words.
fn count_ok(t: &[u32], head: Head) -> bool
    requires head { head ≡ head_at t.now }
    requires whole { (row_at t.now).fixed < length t.now }
    ensures rule { result ≡ count_ok (row_at t.now).tail (row_at t.now).fixed t.now }
{
    let fixed = head.row.fixed;
    match head.row.tail {
        Tail::Alone => head.count == fixed,
        Tail::BySet(each) => {
            let set = Set {
                low: t[fixed - 1],
                high: t[fixed],
            };
            head.count == fixed + each as usize * set.len()
        }
        Tail::ByCount(place, most, each) => {
            let times = t[place as usize] as usize;
            times <= most as usize && head.count == fixed + each as usize * times
        }
        Tail::Absent => false,
    }
}

// The fixed words must be there before a set or a count among them is read.
pub fn shape_ok(t: &[u32], head: Head) -> bool
    requires head { head ≡ head_at t.now }
    ensures rule { result ≡ shape_ok t.now }
{
    if t.len() <= head.row.fixed {
        return false;
    }
    t.len() == head.count + 1 && count_ok(t, head)
}
