ghost use Rattle.space.specs.FirstMaps.{FirstMaps};

/// In a new space a map of 64 pages from 64 makes one node, of 63 from 64 two, and of all pages none.
pub fn first_maps_stand()
    ensures { FirstMaps }
{}
