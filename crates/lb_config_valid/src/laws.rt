ghost use Rattle.lb_config_valid.specs.Valid.{CheckedAreValid};

/// What a valid text's sections keep: names declared and once, and numbers in their ranges.
pub fn checked_sections_are_valid()
    ensures { CheckedAreValid }
{}
