//! Laws of sites with layouts: each clause is a law, and the body does nothing.
ghost use Rattle.liquid_site_build.specs.Chains.{WithoutFuel};
ghost use Rattle.liquid_site_build.specs.Kept.{UntouchedSitePages, UntouchedDocuments, KeptIsBuilt};
ghost use Rattle.liquid_site_build.specs.SiteFiles.{OneReading};

/// Files are read in one way, so what a site is built to follows from its files alone.
///
/// A document comes to the same where what its template and its layouts can see is alike. So
/// building anew those alone that a change touches gives what building all from nothing gives.
pub fn build_laws()
    ensures reading { OneReading }
    ensures fuel { WithoutFuel }
    ensures pages { UntouchedSitePages }
    ensures documents { UntouchedDocuments }
    ensures kept { KeptIsBuilt }
{}
