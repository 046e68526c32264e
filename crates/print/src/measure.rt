// The length of the markup and the number of its error texts, added over the records as they lie in the store.
ghost use Rattle.std.specs.Prelude.{◌≡◌, ◌+◌, ◌<◌};
ghost use Rattle.print.specs.Measure.{Measurable, Measures, Summed};

use crate::Source;
use ast::codes::is_matrix;
use ast::store::get_record;
use ast::sum::{fate_at, marks};
use ast::{Fate, Fields};
use leaves::lengths::{own_errors, own_len};

// What is found of a tree.
#[derive(Clone, Copy)]
pub struct Measured {
    pub length: usize,
    pub errors: usize,
}

// What some records add, and the marks of the matrices among them. The fields are those of `Measured` and of `Marks`, side by side, as each is added by
// itself and one promise speaks of all four.
#[derive(Clone, Copy, Default)]
struct Sums {
    length: usize,
    errors: usize,
    ampersands: usize,
    lines: usize,
}

impl Sums {
    // Adds the record at k, which adds nothing where the finished tree does not hold it.
    fn add_at(&mut self, source: &Source, top: usize, k: usize)
        requires { Measurable source.now.body.now source.now.store.now top × Summed source.now.dialect source.now.body.now source.now.store.now top k self.old × (k < top) }
        ensures { Summed source.now.dialect source.now.body.now source.now.store.now top (k + 1) self.new }
    {
        let fate = fate_at(source.store, top, k);
        if fate == Fate::Dropped {
            return;
        }
        let r = get_record(source.store, k);
        let f = Fields::from(r);
        self.length += own_len(source.dialect, fate == Fate::Slashed, source.body, f);
        self.errors += own_errors(f);
        if !is_matrix(r) {
            return;
        }
        let m = marks(source.store, r.x, r.a);
        self.ampersands += m.ampersands;
        self.lines += m.lines;
    }
}

impl<'a> Source<'a> {
    // Measures the nodes that fill the first `top` records. The marks of a matrix were added as error texts, and are cells.
    pub fn measure(&self, top: usize) -> Measured
        requires { Measurable self.now.body.now self.now.store.now top }
        ensures { Measures self.now.dialect self.now.body.now self.now.store.now top result }
    {
        let mut sums = Sums::default();
        for k in 0..top {
            sums.add_at(self, top, k);
        }
        let more = sums.length + 11 * sums.ampersands + 22 * sums.lines;
        let less = 39 * sums.ampersands + 37 * sums.lines;
        Measured {
            length: more - less,
            errors: sums.errors - (sums.ampersands + sums.lines),
        }
    }
}
