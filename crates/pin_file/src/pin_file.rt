use crate::BackendPins;
use std::marker::Model;

/// The pins of backends with distinct names. Each has at most 16777216 pins, in order of last use: no pin's age is above that of one before
/// it.
#[derive(Debug, Drop)]
pub struct PinFile {
    backends: Vec<BackendPins>,
}

impl Model for PinFile {
    ghost use Rattle.std.specs.Prelude.{List};
    ghost use Rattle.pin_file.specs.declared.backend_pins.BackendPins.{BackendPins};
    ghost use Rattle.pin_file.specs.Files.{IsPinFile};

    ghost Value = { List BackendPins };

    ghost view = { λ file. file.backends.items };

    ghost invariant = { λ file. IsPinFile file.backends.items };
}

impl PinFile {
    ghost use Rattle.std.specs.Prelude.{◌≡◌};
    ghost use Rattle.pin_file.specs.Files.{IsPinFile};

    /// The file of these backends. It allocates nothing.
    pub fn new(backends: Vec<BackendPins>) -> Self
        requires { IsPinFile backends.items }
        ensures { result ≡ backends.items }
    {
        PinFile { backends }
    }

    /// The backends, in the file's order.
    pub fn backends(&self) -> &[BackendPins]
        ensures exact { result.now ≡ self.now }
        ensures lawful { IsPinFile self.now }
    {
        &self.backends
    }
}
