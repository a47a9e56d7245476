// Runs that were worked out by hand, as one checked list.
ghost use Rattle.run.specs.Consoles.{Consoles};

// Each worked run is answered as it should be.
pub fn worked_consoles()
    ensures { Consoles }
{}
