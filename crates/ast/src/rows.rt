// The nodes of a row, linked one behind the other.
ghost use Rattle.std.specs.Prelude.{◌≡◌, ◌+◌, ◌*◌, ◌^◌, ◌≤◌, ◌<◌, length};
ghost use Rattle.ast.specs.Appended.{Appends};

use crate::store::set_next;

// Links the node at i behind the last of some nodes, and answers the first of them all. It stands by itself, without a `Linked`, since `push` asks
// besides that the count can be raised.
#[tactic(auto, using(crate::proofs::RowLaws::appends_first, crate::proofs::RowLaws::appends_next))]
pub fn append(store: &mut [u8], first: usize, last: usize, count: usize, i: usize) -> usize
    requires { (last * 24 + 24 ≤ length store.old) × (i < 65536) }
    ensures { Appends store.old store.new first last count i result }
{
    if count == 0 {
        return i;
    }
    set_next(store, last, i);
    first
}

// The nodes of a row that are linked so far: the first of them, the last, and how many they are. While they are none the two indices mean
// nothing; in an `Option` they would be told by the count once more, and the row's record holds an index in any case.
#[derive(Clone, Copy, Default)]
pub struct Linked {
    pub first: usize,
    pub last: usize,
    pub count: usize,
}

impl Linked {
    // Links the node at i behind the last, and counts it.
    pub fn push(&mut self, store: &mut [u8], i: usize)
        requires { (self.old.last * 24 + 24 ≤ length store.old) × (i < 65536) × (self.old.count + 1 < 2 ^ 64) }
        ensures linked { Appends store.old store.new self.old.first self.old.last self.old.count i self.new.first }
        ensures moved { (self.new.last ≡ i) × (self.new.count ≡ self.old.count + 1) }
    {
        self.first = append(store, self.first, self.last, self.count, i);
        self.last = i;
        self.count += 1;
    }
}
