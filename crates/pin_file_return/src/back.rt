use lb_desk_model::SetPin;

/// What comes back of a file to one backend.
#[derive(Debug, Drop)]
pub struct Returned {
    /// The pins in order of last use, the one used least recently first.
    pub pins: Vec<SetPin>,
    /// How many of the backend's pins in the file don't come back.
    pub left_out: usize,
}
