/// A move of a table's entry to another server.
#[derive(Clone, Copy, Debug)]
pub struct Move<'a> {
    /// The bytes of the entry's key.
    pub key: &'a [u8],
    /// The number of the server that the entry is to name, as `show servers state` prints it (`srv_id`).
    pub server: u32,
}
