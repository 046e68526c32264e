// The variant of a tree's letters, set in its records: the Rust's `set_variant`.
ghost use Rattle.std.specs.Prelude.{◌≡◌, ◌<◌};
ghost use Rattle.ast.specs.Turned.{Stored, Sets, row_count};

use crate::Role;
use crate::store::{get_next, get_record, set_attr};
use attribute::Variant;

// Gives each letter of the tree at an index the variant, through rows inside rows; no record is made. A row's nodes lie before it,
// so that `left`, which is above the index, falls. They are linked and n is their number, so there is no slice of them to go through.
pub fn set_variant(store: &mut [u8], i: usize, v: Variant, left: usize)
    requires { Stored store.old i × (i < left) }
    ensures { Sets store.old store.new i v }
{
    let r = get_record(store, i);
    match Role::from(r) {
        Role::Letter => set_attr(store, i, u8::from(v)),
        Role::Row(n) => {
            let mut k = r.a;
            for _ in 0..n {
                set_variant(store, k, v, left - 1);
                k = get_next(store, k);
            }
        }
        _ => {}
    }
}
