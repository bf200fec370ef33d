ghost use Rattle.samples.specs.Samples.{Samples};

/// The sample results, proved of the definitions.
pub fn samples_stand()
    ensures { Samples }
{}
