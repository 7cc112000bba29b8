//! Laws of partings. The function is its contract: it computes nothing.

ghost use Rattle.flame_nodes.specs.PartingLaws.{HasABagForEach, EachGoesToOneNode};

/// However takers are parted among one node or more, there is a bag for each node, and each taker is in one of them, as often as it
/// was there.
pub fn each_goes_to_one_node()
    ensures bags { HasABagForEach }
    ensures whole { EachGoesToOneNode }
{}
