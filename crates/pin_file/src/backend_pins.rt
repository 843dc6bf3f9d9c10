use crate::FilePin;
use lb_types::Name;
use std::alloc::AllocFailed;
use std::marker::Model;

/// The pins of one backend.
#[derive(Debug, Drop)]
pub struct BackendPins {
    /// The backend's name.
    pub name: Name,
    /// Its pins in order of last use, the one used least recently first.
    pub pins: PinList,
}

/// A list of pins.
#[derive(Debug, Drop)]
pub struct PinList {
    pins: Vec<FilePin>,
}

impl Model for PinList {
    ghost use Rattle.std.specs.Prelude.{List};
    ghost use Rattle.pin_file.specs.declared.file_pin.FilePin.{FilePin};

    ghost Value = { List FilePin };

    ghost view = { λ list. list.pins.items };
}

impl PinList {
    ghost use Rattle.std.specs.Prelude.{◌≡◌, ◌∷◌, ◌++◌, [], OnOk};

    /// The list of these pins. It allocates nothing.
    pub fn new(pins: Vec<FilePin>) -> Self
        ensures { result ≡ pins.items }
    {
        PinList { pins }
    }

    /// The pins.
    pub fn as_slice(&self) -> &[FilePin]
        ensures { result.now ≡ self.now }
    {
        &self.pins
    }

    /// Puts a pin at the end. The only error is out of memory.
    pub(crate) fn push(&mut self, pin: FilePin) -> Result<(), AllocFailed<FilePin>>
        ensures { OnOk result (self.new ≡ self.old ++ pin ∷ []) }
    {
        self.pins.push(pin)
    }
}
