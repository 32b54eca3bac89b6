// Cuts classes into runs of neighbours, each as long as a reach allows.
#![tactic(auto)]

ghost use Rattle.std.specs.Prelude.{◌≡◌, ℕ, ◌+◌, ◌<◌, ◌≤◌, ◌++◌, length, drop, replicate};
ghost use Rattle.cutting.specs.Computed.{Agrees};
ghost use Rattle.cutting.specs.Cutting.{Monotone};
ghost use Rattle.cutting.specs.Shortest.{Laws};
ghost use Rattle.cutting.specs.SplitPoints.{Classes, Clear, SplitPoints};

// The greedy cutting is there exactly when a cutting fits, is the only one, has the fewest runs, and has no more at a larger reach.
pub fn greedy_is_shortest()
    ensures { (size : ℕ → ℕ → ℕ) → Monotone size → Laws size }
{}

// The computed cutting is the greedy one.
pub fn greedy_is_computed()
    ensures { (size : ℕ → ℕ → ℕ) → Monotone size → (r k : ℕ) → 0 < k → Agrees size r k }
{}

// A class that alone exceeds the reach.
#[derive(Clone, Copy, PartialEq, Eq, Debug)]
pub struct ClassTooLarge {
    pub class: u32,
}

// Tells the sizes of runs of classes while it grows one run, class by class.
pub trait Sizing {
    // The classes, with the size of each run of them.
    ghost classes: { Self → Classes };

    // What holds between calls.
    ghost ready: { Self → Type 0 };

    // The run that is grown holds the classes start .. end.
    ghost grown: { Self → ℕ → ℕ → Type 0 };

    // What a call leaves as it was, besides the classes.
    ghost keeps: { Self → Self → Type 0 };

    // What two calls leave as it was.
    ghost joins: { (s t u : Self) → keeps s t → keeps t u → keeps s u };

    // How many classes there are.
    fn class_count(&self) -> u32
        requires { ready self.now }
        ensures { result ≡ (classes self.now).count };

    // Begins a run with this class alone, and tells its size.
    fn start(&mut self, class: u32) -> usize
        requires ready { ready self.old }
        requires within { class < (classes self.old).count }
        ensures size { result ≡ (classes self.old).size class (class + 1) }
        ensures ready { ready self.new }
        ensures grown { grown self.new class (class + 1) }
        ensures same { classes self.new ≡ classes self.old }
        ensures keeps { keeps self.old self.new };

    // Takes the class into the run start .. class, which ends before it, and tells its size.
    fn grow(&mut self, start: u32, class: u32) -> usize
        requires ready { ready self.old }
        requires within { class < (classes self.old).count }
        requires grown { grown self.old start class }
        ensures size { result ≡ (classes self.old).size start (class + 1) }
        ensures ready { ready self.new }
        ensures grown { grown self.new start (class + 1) }
        ensures same { classes self.new ≡ classes self.old }
        ensures keeps { keeps self.old self.new };
}

// Makes the first entries of a list zero.
pub fn clear_split_points(points: &mut [u32], count: usize)
    requires { count ≤ length points.old }
    ensures { points.new ≡ replicate count 0 ++ drop count points.old }
{
    points[0..count].fill(0);
}

// Cuts the classes into runs, each as long as the reach allows. Writes the first class of each run but the first into the list, and answers how many there are.
// Or answers the lowest class that alone exceeds the reach, and leaves the list as it was.
// The list is fixed memory of the caller, as long as there may be places, so the count of those in it stands beside it.
pub fn compute_split_points<S: Sizing>(
    sizes: &mut S,
    reach: usize,
    points: &mut [u32],
) -> Result<usize, ClassTooLarge>
    requires ready { S.Sizing.ready sizes.old }
    requires some { 0 < (S.Sizing.classes sizes.old).count }
    requires room { (S.Sizing.classes sizes.old).count ≤ length points.old }
    requires clear { Clear points.old }
    ensures points { SplitPoints (S.Sizing.classes sizes.old) reach result points.old points.new }
    ensures ready { S.Sizing.ready sizes.new }
    ensures same { S.Sizing.classes sizes.new ≡ S.Sizing.classes sizes.old }
    ensures keeps { S.Sizing.keeps sizes.old sizes.new }
{
    let class_count = sizes.class_count();
    if sizes.start(0) > reach {
        return Err(ClassTooLarge { class: 0 });
    }
    let mut count = 0;
    let mut start = 0;
    for class in 1..class_count {
        if sizes.grow(start, class) <= reach {
            continue;
        }
        if sizes.start(class) > reach {
            clear_split_points(points, count);
            return Err(ClassTooLarge { class });
        }
        points[count] = class;
        count += 1;
        start = class;
    }
    Ok(count)
}
