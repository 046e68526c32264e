// What the records tell as they lie in the store: which of them the finished tree does not hold, and the marks of a matrix. A record's
// kind is asked by its tag, so that reading a node has one caller, the printer, where it costs nothing: with a second caller pages took 11 to 21 %
// longer, measured on an older toolchain (docs/DECISIONS.md, 74).
ghost use Rattle.std.specs.Prelude.{◌≡◌, ◌+◌, ◌*◌, ◌≤◌, ◌<◌, length};
ghost use Rattle.ast.specs.Shape.{fields_of, shape_of, role_of};
ghost use Rattle.ast.specs.Held.{is_row};
ghost use Rattle.ast.specs.Sum.{fate, fate_at, marks, mark_sum, cells, Chain};

use crate::store::get_record;
use crate::{Fate, Marks, Record, Role};

fn is_row(k: Role) -> bool
    ensures { result ≡ is_row k }
{
    matches!(k, Role::Row(_))
}

// The fate of a record by the one behind it: the operand of a stretched operator is dropped, and so is the row opened for a matrix.
fn fate_by(behind: Record, r: Record) -> Fate
    ensures { result ≡ fate (shape_of (fields_of behind)) (is_row (role_of (shape_of (fields_of r)))) }
{
    match behind.tag {
        6 | 7 => Fate::Dropped,
        24 => Fate::Slashed,
        36.. if is_row(Role::from(r)) => Fate::Dropped,
        _ => Fate::Counted,
    }
}

// The fate of the record at an index, of `top` records.
pub fn fate_at(store: &[u8], top: usize, i: usize) -> Fate
    requires { (top * 24 ≤ length store.now) × (i < top) }
    ensures { result ≡ fate_at store.now top i }
{
    let behind = i + 1;
    if behind < top {
        fate_by(get_record(store, behind), get_record(store, i))
    } else {
        Fate::Counted
    }
}

// The marks among n nodes, each the next of the one before, from the index a on. The records are linked and n is their number, so there is
// no slice of them to go through.
pub fn marks(store: &[u8], n: u32, a: usize) -> Marks
    requires { Chain store.now n a }
    ensures { (result.ampersands ≡ cells (marks 1 0) store.now n a) × (result.lines ≡ cells (marks 0 1) store.now n a) }
{
    let mut k = a;
    let mut found = Marks::default();
    for _ in 0..n {
        let r = get_record(store, k);
        found.ampersands += usize::from(r.tag == 11);
        found.lines += usize::from(r.tag == 12);
        k = r.next;
    }
    found
}
