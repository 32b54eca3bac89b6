// Incoming links.
ghost use Rattle.std.specs.Prelude.{◌≡◌, ℕ, ◌<◌, ◌≤◌, map, length, replicate};
ghost use Rattle.std.specs.List.{range_with_len};
ghost use Rattle.serialize.specs.Objects.{link_at, incoming, leading_to};
ghost use Rattle.graph.specs.Model.{view};

use super::Graph;
use serialize::link::Link;

// The list of zeros is working memory of the caller, which asks it of itself between calls; no type of its own holds it.
// Counts, in a list of zeros, how many of the links lead to each vertex.
fn count_children(links: &[Link], counts: &mut [u32])
    requires zero { counts.old ≡ replicate (length counts.old) 0 }
    requires few { length links.now ≤ 100000 }
    requires children { (i : ℕ) → i < length links.now → (link_at links.now i).child < length counts.old }
    ensures { counts.new ≡ map (leading_to links.now) (range_with_len 0 (length counts.old)) }
{
    for link in links {
        counts[link.child as usize] += 1;
    }
}

impl Graph {
    // Counts the incoming links of every vertex, in a list of zeros.
    pub fn count_incoming(&self, counts: &mut [u32])
        requires zero { counts.old ≡ replicate (length counts.old) 0 }
        requires long { length (view self.now).nodes ≤ length counts.old }
        ensures { counts.new ≡ map (incoming (view self.now).nodes) (range_with_len 0 (length counts.old)) }
    {
        count_children(self.all_links(), counts);
    }
}
