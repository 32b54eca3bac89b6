// Finding a link.
ghost use Rattle.std.specs.Prelude.{◌≡◌, ◌≤◌, length, drop};
ghost use Rattle.serialize.specs.Objects.{Ascends};
ghost use Rattle.fields.specs.Fields.{from};

use serialize::link::Link;

// That the links ascend is asked here and where links are searched: a slice holds no such fact, and a graph's own links have it.
/// How many links start before `place`.
pub fn links_before(links: &[Link], place: usize) -> usize
    requires { Ascends links.now }
    ensures within { result ≤ length links.now }
    ensures rest { drop result links.now ≡ from place links.now }
{
    links.partition_point(|link| (link.position as usize) < place)
}
