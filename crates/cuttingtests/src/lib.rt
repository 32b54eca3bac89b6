// Tests of the cuttings of classes.
#![tactic(auto)]

ghost use Rattle.std.specs.Prelude.{◌≡◌, ◌<◌, ◌≤◌, true, false, length, replicate, if◌then◌else◌, slice_index, slice_index_or, slice_set};
ghost use Rattle.cutting.specs.SplitPoints.{Clear, SplitPoints};
ghost use Rattle.cuttingtests.specs.Shared.{classes, classes_of, Ready, Running, Lent, lent_on};
ghost use Rattle.cuttingtests.specs.Worked.{Worked};

use cutting::{ClassTooLarge, Sizing, compute_split_points};

// Classes that each use a thing. A run's size is a base and the sizes of the things that its classes use, each once.
// Marks and sizes are two lists, as long as each other: the marks are lent and written, the sizes are only read.
pub struct Shared<'m, 'a> {
    pub marks: &'m mut [bool],
    pub base: u32,
    pub things: &'a [u32],
    pub sizes: &'a [u32],
    pub total: usize,
}

impl Drop for Shared<'_, '_> {
    // Leaves no mark.
    fn drop(self)
        ensures { self.exit.0.now ≡ replicate (length self.exit.0.now) false }
    {
        self.marks.fill(false);
        let Shared {
            marks: _,
            base: _,
            things: _,
            sizes: _,
            total: _,
        } = self;
    }
}

// The size of a thing that is not marked yet, or 0. Marks it.
fn taken(thing: usize, sizes: &[u32], marks: &mut [bool]) -> usize
    requires { length marks.old ≡ length sizes.now }
    ensures size { result ≡ (if slice_index_or marks.old thing false then 0 else slice_index sizes.now thing) }
    ensures small { result ≤ 4294967295 }
    ensures marks { marks.new ≡ slice_set marks.old thing true }
{
    if thing >= marks.len() {
        return 0;
    }
    let again = marks[thing];
    marks[thing] = true;
    if again { 0 } else { sizes[thing] as usize }
}

impl Sizing for Shared<'_, '_> {
    ghost classes = { classes_of };

    ghost ready = { Ready };

    ghost grown = { Running };

    ghost keeps = { Lent };

    ghost joins = { lent_on };

    fn class_count(&self) -> u32 {
        self.things.len() as u32
    }

    fn start(&mut self, class: u32) -> usize {
        self.marks.fill(false);
        let thing = self.things[class as usize] as usize;
        self.total = self.base as usize + taken(thing, self.sizes, self.marks);
        self.total
    }

    fn grow(&mut self, _start: u32, class: u32) -> usize {
        let thing = self.things[class as usize] as usize;
        self.total += taken(thing, self.sizes, self.marks);
        self.total
    }
}

// Cuts classes that use these things, and leaves no mark.
pub fn cut_shared<'a>(
    base: u32,
    things: &'a [u32],
    sizes: &'a [u32],
    marks: &mut [bool],
    reach: usize,
    points: &mut [u32],
) -> Result<usize, ClassTooLarge>
    requires some { 0 < length things.now }
    requires few { length things.now < 65536 }
    requires marks { length marks.old ≡ length sizes.now }
    requires room { length things.now ≤ length points.old }
    requires clear { Clear points.old }
    ensures points { SplitPoints (classes base things.now sizes.now) reach result points.old points.new }
    ensures marks { marks.new ≡ replicate (length marks.new) false }
{
    let mut shared = Shared {
        marks,
        base,
        things,
        sizes,
        total: 0,
    };
    compute_split_points(&mut shared, reach, points)
}

// Some cuttings, computed.
pub fn worked_cuts()
    ensures { Worked }
{}

#[cfg(test)]
mod tests {
    use super::*;
    use std::process::Abort;

    const BASE: u32 = 4;

    const SIZES: [u32; 6] = [10, 20, 30, 40, 50, 60];

    // Cuts classes that use these things at the reach, and compares the answer and the list.
    fn cuts(
        rt: &impl Abort,
        things: &[u32],
        reach: usize,
        answer: Result<usize, ClassTooLarge>,
        list: [u32; 6],
    ) {
        let mut marks = [false; 6];
        let mut points = [0; 6];
        assert!(rt; 0 < things.len());
        assert!(rt; things.len() <= 6);
        assert_eq!(rt;
            cut_shared(BASE, things, &SIZES, &mut marks, reach, &mut points),
            answer
        );
        assert_eq!(rt; points, list);
    }

    #[test]
    fn one_class(rt: HostRuntime) {
        cuts(&rt, &[0], 14, Ok(0), [0; 6]);
        cuts(&rt, &[0], 13, Err(ClassTooLarge { class: 0 }), [0; 6]);
    }

    #[test]
    fn at_the_reach_and_one_above(rt: HostRuntime) {
        cuts(&rt, &[0, 1, 2], 65, Ok(0), [0; 6]);
        cuts(&rt, &[0, 1, 2], 64, Ok(0), [0; 6]);
        cuts(&rt, &[0, 1, 2], 63, Ok(1), [2, 0, 0, 0, 0, 0]);
        cuts(&rt, &[2, 1, 2], 34, Ok(2), [1, 2, 0, 0, 0, 0]);
    }

    #[test]
    fn a_thing_counts_once_in_a_run_and_anew_in_the_next(rt: HostRuntime) {
        cuts(&rt, &[1, 1, 1, 0], 24, Ok(1), [3, 0, 0, 0, 0, 0]);
        cuts(&rt, &[0, 1, 0, 1], 34, Ok(0), [0; 6]);
        cuts(&rt, &[0, 1, 0, 1], 33, Ok(3), [1, 2, 3, 0, 0, 0]);
        cuts(&rt, &[0, 2, 0, 3, 0, 2], 54, Ok(2), [3, 5, 0, 0, 0, 0]);
    }

    #[test]
    fn the_lowest_class_is_reported_and_the_list_left(rt: HostRuntime) {
        cuts(&rt, &[5, 0, 5], 63, Err(ClassTooLarge { class: 0 }), [0; 6]);
        cuts(&rt, &[0, 5, 4], 50, Err(ClassTooLarge { class: 1 }), [0; 6]);
        cuts(
            &rt,
            &[0, 1, 2, 5, 5],
            34,
            Err(ClassTooLarge { class: 3 }),
            [0; 6],
        );
    }
}
