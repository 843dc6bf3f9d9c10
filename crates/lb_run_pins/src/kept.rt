use pin_file::PinFile;

/// The file that keeps the pins, and how often it is written.
#[derive(Clone, Copy, Debug, PartialEq, Eq)]
pub struct PinsPlace<'a> {
    /// The file's path.
    pub path: &'a str,
    /// How many milliseconds pass between two looks at whether it has to be written while the balancer runs. 0 for none.
    pub every: u32,
}

/// The pins that were kept of the process before, and where they are kept on.
#[derive(Debug, Drop)]
pub struct Kept<'a> {
    pub place: PinsPlace<'a>,
    pub file: PinFile,
}
