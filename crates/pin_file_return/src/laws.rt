ghost use Rattle.pin_file_return.specs.Saves.{SavedPinsComeBack};
ghost use Rattle.pin_file_return.specs.Starts.{ReturnedPinsAreTheTable};

/// The pins that come back, set in their order where the backend opens, are the table. So `returned` gives pins of distinct names, whose
/// last uses never fall, no more than the table may have, at servers that exist.
pub fn returned_pins_are_the_table()
    ensures { ReturnedPinsAreTheTable }
{}

/// Where the configuration is the same, what a file says of a table comes back: its pins at a server, in their order, with the same ages as far
/// as the clock goes back.
pub fn saved_pins_come_back()
    ensures { SavedPinsComeBack }
{}
