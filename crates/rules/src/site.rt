// Tables of sites that no refusal applies to.
ghost use Rattle.rules.specs.WellFormed.{WellFormedSites};

// The sites that an accepted table says.
#[derive(Clone, Copy)]
pub struct Sites<'a> {
    pub table: &'a [u32],
    ghost well_formed: { WellFormedSites table.now },
}
