ghost use Rattle.std.specs.Prelude.{Bool, List};
ghost use Rattle.rise_fall.specs.Health.{Base, StandsFor};
ghost use Rattle.rise_fall.specs.Tally.{Tally, IsTally};

/// Each health that there can be stands for some base and results, so that what is promised of those is said of it.
pub fn each_health_has_its_results()
    ensures { (health : Tally) → IsTally health.rise health.fall health.up health.against
        → (base : Base) × (results : List Bool)
        × StandsFor health health.rise health.fall base results }
{}
