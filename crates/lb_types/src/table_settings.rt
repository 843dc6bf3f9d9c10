ghost use Rattle.std.specs.Prelude.{◌≤◌};
ghost use Rattle.lb_types.specs.declared.limits.TheConstants.{MAX_PINS};

/// A backend's table of pins, as it is configured: HAProxy Configuration Manual 2.8, section 4.2, `stick-table`.
#[derive(Clone, Copy, Debug, PartialEq, Eq)]
pub struct TableSettings {
    /// How many pins it holds, 1 to 16777216.
    pub size: u32,
    /// After how many milliseconds without a use a pin may go, if ever.
    pub expire: Option<u32>,
    /// Whether a full table keeps its pins, and lets no new one in.
    pub no_purge: bool,
    pub ghost size_from: { 1 ≤ size },
    pub ghost size_to: { size ≤ MAX_PINS },
}
