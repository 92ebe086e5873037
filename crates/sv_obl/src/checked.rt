// What holds of each admitted design.
ghost use Rattle.std.specs.Prelude.{All};
ghost use Rattle.sv_lattice.specs.Maps.{MapRows, IsMap};
ghost use Rattle.sv_flat.specs.Views.{design_of};
ghost use Rattle.sv_design.specs.Designs.{IsDesign};
ghost use Rattle.sv_obl.specs.Noninterference.{IsChecked};

use sv_design::Design;
use sv_lattice::LabelMap;

// Changes nothing: a call brings that each of these has one or two ranges and a row for each value.
fn know_maps(maps: &[LabelMap])
    ensures { All (λ (m : MapRows). IsMap m.first m.second m.rows) maps.now }
{
    for map in maps {
        // brings that of this one
        let _rows = map.rows();
    }
}

/// Changes nothing: a call brings that the design is sound, breaks no rule, and has a lattice and
/// label maps, as the laws on valid obligations ask.
pub fn know_design(design: &Design)
    ensures design { IsDesign (design_of design.now) }
    ensures checked { IsChecked (design_of design.now) }
{
    // brings that its points are those of a lattice
    let _size = design.lattice().size();
    know_maps(design.maps());
}
