// Records put into a lent store and read from it.
ghost use Rattle.std.specs.Prelude.{◌≡◌, ◌+◌, ◌*◌, ◌≤◌, ◌<◌, ◌%◌, ◌/◌, length, slice_set};
ghost use Rattle.ast.specs.Store.{two, four, record_at, Small, Put};
ghost use Rattle.ast.specs.Change.{with_next, with_attr};

use crate::Record;

// The number in two bytes. In std no trait has `from_le_bytes` or `to_le_bytes`, and the crates use std alone: so two and four bytes are no
// instances of one function. Where they are put, one over any number of bytes would say that a run of bytes is put, and the definitions of a record go
// byte by byte.
fn get_two(store: &[u8], o: usize) -> usize
    requires { o + 2 ≤ length store.now }
    ensures { (result ≡ two store.now o) × (result < 65536) }
{
    usize::from(u16::from_le_bytes([store[o], store[o + 1]]))
}

// The number in four bytes.
fn get_four(store: &[u8], o: usize) -> u32
    requires { o + 4 ≤ length store.now }
    ensures { result ≡ four store.now o }
{
    u32::from_le_bytes([store[o], store[o + 1], store[o + 2], store[o + 3]])
}

// The record at an index.
pub fn get_record(store: &[u8], i: usize) -> Record
    requires { i * 24 + 24 ≤ length store.now }
    ensures { (result ≡ record_at store.now i) × Small result }
{
    let o = i * 24;
    let tag = store[o];
    let attr = store[o + 1];
    let a = get_two(store, o + 2);
    let b = get_two(store, o + 4);
    let c = get_two(store, o + 6);
    let next = get_two(store, o + 8);
    let x = get_four(store, o + 10);
    let y = get_four(store, o + 14);
    Record {
        tag,
        attr,
        a,
        b,
        c,
        next,
        x,
        y,
    }
}

// The next of the record at an index, by itself.
#[tactic(auto, unfolding(crate::specs::Store::record_at, crate::specs::Store::record_of))]
pub fn get_next(store: &[u8], i: usize) -> usize
    requires { i * 24 + 24 ≤ length store.now }
    ensures { (result ≡ (record_at store.now i).next) × (result < 65536) }
{
    get_two(store, i * 24 + 8)
}

// Puts a number into two bytes.
fn put_two(store: &mut [u8], o: usize, v: usize)
    requires { (o + 2 ≤ length store.old) × (v < 65536) }
    ensures { store.new ≡ slice_set (slice_set store.old o (v % 256)) (o + 1) (v / 256 % 256) }
{
    let [low, high] = (v as u16).to_le_bytes();
    store[o] = low;
    store[o + 1] = high;
}

// Puts a number into four bytes.
fn put_four(store: &mut [u8], o: usize, v: u32)
    requires { o + 4 ≤ length store.old }
    ensures { store.new ≡ slice_set (slice_set (slice_set (slice_set store.old o (v % 256)) (o + 1) (v / 256 % 256)) (o + 2) (v / 65536 % 256)) (o + 3) (v / 16777216) }
{
    let [a, b, c, d] = v.to_le_bytes();
    store[o] = a;
    store[o + 1] = b;
    store[o + 2] = c;
    store[o + 3] = d;
}

// Puts a record at an index; the bytes after its numbers stay as they were.
pub fn put_record(store: &mut [u8], i: usize, r: Record)
    requires { (i * 24 + 24 ≤ length store.old) × Small r }
    ensures { Put store.old store.new i r }
{
    let o = i * 24;
    store[o] = r.tag;
    store[o + 1] = r.attr;
    put_two(store, o + 2, r.a);
    put_two(store, o + 4, r.b);
    put_two(store, o + 6, r.c);
    put_two(store, o + 8, r.next);
    put_four(store, o + 10, r.x);
    put_four(store, o + 14, r.y);
}

// Changes the next of the record at an index.
pub(crate) fn set_next(store: &mut [u8], i: usize, next: usize)
    requires { (i * 24 + 24 ≤ length store.old) × (next < 65536) }
    ensures { Put store.old store.new i (with_next (record_at store.old i) next) }
{
    put_two(store, i * 24 + 8, next);
}

// Changes the attribute of the record at an index.
pub(crate) fn set_attr(store: &mut [u8], i: usize, attr: u8)
    requires { i * 24 + 24 ≤ length store.old }
    ensures { Put store.old store.new i (with_attr (record_at store.old i) attr) }
{
    store[i * 24 + 1] = attr;
}
