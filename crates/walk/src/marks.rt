// Visit marks.
ghost use Rattle.walk.specs.Reach.{Clear};

// Takes all marks away.
pub fn clear(visited: &mut [bool])
    ensures { Clear visited.new }
{
    visited.fill(false);
}

// Visit marks that are clear when this value goes.
pub struct Marks<'a> {
    pub visited: &'a mut [bool],
}

impl Drop for Marks<'_> {
    fn drop(self)
        ensures { Clear self.exit.0.now }
    {
        clear(self.visited);
        let Marks { visited: _ } = self;
    }
}
