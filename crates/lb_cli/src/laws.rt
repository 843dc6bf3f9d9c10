ghost use Rattle.lb_cli.specs.AllFaults.{BeginsAsCheck, NoOtherIsLeft, OneFaultIsOne};
ghost use Rattle.lb_cli.specs.Verified.{PlansAreVerified};

/// What `plan` writes for a sheet, `verify` finds best, with the score that the plan has for the sheet.
pub fn plans_are_verified()
    ensures { PlansAreVerified }
{}

/// What `check` prints of a text is the beginning of what `check --all` prints of it, whatever the hints are.
pub fn check_all_begins_as_check()
    ensures { BeginsAsCheck }
{}

/// If a text is valid without the line of its fault, `check --all` prints the line of this fault, perhaps a hint, and `1 fault`.
pub fn one_fault_is_one()
    ensures { OneFaultIsOne }
{}

/// If `check --all` reports fewer than 100 faults, the text without their lines is valid, or has its fault at the line of the last one.
pub fn no_other_fault_is_left()
    ensures { NoOtherIsLeft }
{}
