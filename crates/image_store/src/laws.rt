//! Laws of the tests of a shape. Each function does nothing: what it ensures is the law.

ghost use Rattle.image_store.specs.Laws.{ShapesAreTested};
ghost use Rattle.image_store.specs.Numbers.{LimitsAreTheProfiles};

/// The tests of a namespace's numbers pass each shape that there is, and no other.
pub fn shapes_are_tested()
    ensures { ShapesAreTested }
{}

/// There are at most 4096 zones, of at most 16777216 blocks each, and the blocks that can be written take at most 268435456
/// bytes in all (profile).
pub fn limits_are_the_profiles()
    ensures { LimitsAreTheProfiles }
{}
