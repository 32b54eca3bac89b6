// Laws of what is computed of objects.
ghost use Rattle.walk.specs.Computed.{ReachedRight, ReachedGrows};

// The marks that `reached` computes are the closure of the links.
pub fn reached_is_closure()
    ensures { ReachedRight }
{}

// What reaches more is no smaller.
pub fn reached_grows()
    ensures { ReachedGrows }
{}
