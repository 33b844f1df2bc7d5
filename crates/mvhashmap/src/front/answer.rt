// Answers put into the answer slice, and the call's result.
ghost use Rattle.std.specs.Prelude.{◌≡◌, [], ◌∷◌, ◌≤◌, ◌<◌, ◌+◌, length, set, get_or};
ghost use Rattle.number.specs.Number.{value_of};
ghost use Rattle.number.specs.Words.{digits};
ghost use Rattle.delta.specs.Delta.{delta_words};
ghost use Rattle.delta.specs.Op.{exact};
ghost use Rattle.types.specs.Index.{word_of};
ghost use Rattle.types.specs.Refusal.{result_number};
ghost use Rattle.types.specs.Value.{value_at};
ghost use Rattle.types.specs.ValueWithLayout.{words_of, value_from};
ghost use Rattle.types.specs.Response.{head_of, response, answer_number, resolved_kind, unresolved_kind, dependency_kind, size_kind, answer_width};
ghost use Rattle.model.specs.Data.{versioned_answer};
ghost use Rattle.versioned_group_data.specs.Ruled.{answer_in};
ghost use Rattle.mvhashmap.specs.Answer.{output_answer, materialized_answer, group_output_answer, done_ruling, Put};

use delta::DeltaOp;
use number::Number;
use types::index::{Incarnation, ShiftedTxnIndex, StorageVersion, TxnIndex};
use types::output::{MVDataOutput, MVGroupOutput};
use types::refusal::Refusal;
use types::response;
use types::response::{ANSWER_WIDTH, AnswerKind};
use types::value::{VALUE_WIDTH, ValueWithLayout};

// An index, an incarnation and a value.
const VERSION_AND_VALUE: usize = 2 + VALUE_WIDTH;

fn put_head(out: &mut [u32; ANSWER_WIDTH], kind: AnswerKind, count: usize)
    requires count { count < answer_width }
    ensures put { out.new ≡ set out.old 0 (head_of (answer_number kind) count) }
{
    out[0] = response::head(u32::from(kind), count);
}

// A response without words.
pub fn put_bare(out: &mut [u32; ANSWER_WIDTH], kind: AnswerKind)
    ensures put { out.new ≡ answer_in (response (answer_number kind) []) out.old }
{
    put_head(out, kind, 0);
}

fn put_versioned(
    out: &mut [u32; ANSWER_WIDTH],
    at: ShiftedTxnIndex,
    incarnation: Incarnation,
    v: ValueWithLayout,
)
    ensures put { out.new ≡ answer_in (versioned_answer (word_of at) incarnation (words_of v)) out.old }
{
    match at.idx() {
        Ok(index) => {
            put_head(out, AnswerKind::Versioned, VERSION_AND_VALUE);
            out[1] = index;
            out[2] = incarnation;
            v.write(out, 3);
        }
        Err(StorageVersion) => {
            put_head(out, AnswerKind::VersionedAtBase, VALUE_WIDTH);
            v.write(out, 1);
        }
    }
}

// The write whose content begins at word b of a store, at a shifted index.
pub fn put_write(s: &[u32], b: usize, place: u32, out: &mut [u32; ANSWER_WIDTH])
    requires inside { b + 20 ≤ length s.now }
    ensures put { out.new
        ≡ answer_in (versioned_answer place (get_or s.now b 0) (words_of (value_from (value_at (b + 1) s.now)))) out.old }
{
    let at = ShiftedTxnIndex::from_word(place);
    let incarnation = s[b];
    let v = ValueWithLayout::read(s, b + 1);
    put_versioned(out, at, incarnation, v);
}

// Kept: two functions. A trait of what is put, with a count, a kind and the words for a number and for a delta, is longer than both.
fn put_number(out: &mut [u32; ANSWER_WIDTH], n: Number)
    ensures put { out.new ≡ answer_in (response resolved_kind (digits 4 (value_of n))) out.old }
{
    put_head(out, AnswerKind::Resolved, 4);
    number::words::write(out, 1, n);
}

fn put_delta(out: &mut [u32; ANSWER_WIDTH], op: DeltaOp)
    ensures put { out.new ≡ answer_in (response unresolved_kind (delta_words (exact op))) out.old }
{
    put_head(out, AnswerKind::Unresolved, 17);
    delta::words::write(out, 1, op);
}

fn put_dependency(out: &mut [u32; ANSWER_WIDTH], index: TxnIndex)
    ensures put { out.new ≡ answer_in (response dependency_kind (index ∷ [])) out.old }
{
    put_head(out, AnswerKind::Dependency, 1);
    out[1] = index;
}

fn put_size(out: &mut [u32; ANSWER_WIDTH], members: u32, sum: u32)
    ensures put { out.new ≡ answer_in (response size_kind (members ∷ sum ∷ [])) out.old }
{
    put_head(out, AnswerKind::Size, 2);
    out[1] = members;
    out[2] = sum;
}

// What an operation came to is answered as done, and a refusal has no words.
pub fn done(out: &mut [u32; ANSWER_WIDTH], r: Result<(), Refusal>) -> Result<(), Refusal>
    ensures put { Put (done_ruling (result_number r)) out.old (result_number result) out.new }
{
    r?;
    put_bare(out, AnswerKind::Done);
    Ok(())
}

// What a read of a value found.
#[tactic(auto, unfolding(crate::specs::Answer::output_answer))]
pub fn put_data_output(out: &mut [u32; ANSWER_WIDTH], o: MVDataOutput)
    ensures put { out.new ≡ answer_in (output_answer o) out.old }
    ensures size { length out.new ≡ answer_width }
{
    match o {
        MVDataOutput::Versioned(at, incarnation, v) => put_versioned(out, at, incarnation, v),
        MVDataOutput::Resolved(n) => put_number(out, n),
        MVDataOutput::Unresolved(op) => put_delta(out, op),
        MVDataOutput::Uninitialized => put_bare(out, AnswerKind::Uninitialized),
        MVDataOutput::Dependency(index) => put_dependency(out, index),
        MVDataOutput::DeltaApplicationFailure => {
            put_bare(out, AnswerKind::DeltaApplicationFailure)
        }
    }
}

// What a delta came to, by its number or by itself.
#[tactic(auto, unfolding(crate::specs::Answer::materialized_answer))]
pub fn put_materialized(out: &mut [u32; ANSWER_WIDTH], m: Result<Number, DeltaOp>)
    ensures put { out.new ≡ answer_in (materialized_answer m) out.old }
    ensures size { length out.new ≡ answer_width }
{
    match m {
        Ok(n) => put_number(out, n),
        Err(op) => put_delta(out, op),
    }
}

// What a read of a group found.
#[tactic(auto, unfolding(crate::specs::Answer::group_output_answer))]
pub fn put_group_output(out: &mut [u32; ANSWER_WIDTH], o: MVGroupOutput)
    ensures put { out.new ≡ answer_in (group_output_answer o) out.old }
    ensures size { length out.new ≡ answer_width }
{
    match o {
        MVGroupOutput::Versioned(at, incarnation, v) => put_versioned(out, at, incarnation, v),
        MVGroupOutput::Size(members, sum) => put_size(out, members, sum),
        MVGroupOutput::Uninitialized => put_bare(out, AnswerKind::Uninitialized),
        MVGroupOutput::TagNotFound => put_bare(out, AnswerKind::TagNotFound),
        MVGroupOutput::Dependency(index) => put_dependency(out, index),
    }
}
