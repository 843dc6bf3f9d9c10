use lb_types::Name;
use pin_set::KeyText;
use std::alloc::Global;
use std::marker::Model;

/// A pin as a file says it. Servers have their names here, since a configuration may number them otherwise after a restart.
#[derive(Debug, Drop)]
pub struct FilePin {
    /// The bytes of the key. Of an address they are its text.
    pub key: KeyText,
    /// The servers that the matching `use-server` rules named when the pin was made.
    pub wanted: NameList,
    /// Where the pin is, if it is at a server.
    pub server: Option<Name>,
    /// What it costs to move the pin, 1 to 1000.
    pub cost: u16,
    /// How long before the file was made a request was last served through the pin, in milliseconds.
    pub age: u64,
}

/// A list of names.
#[derive(Debug, Drop)]
pub struct NameList {
    names: Vec<Name>,
}

impl Model for NameList {
    ghost use Rattle.std.specs.Prelude.{List, ℕ};

    ghost Value = { List (List ℕ) };

    ghost view = { λ list. list.names.items };
}

impl NameList {
    ghost use Rattle.std.specs.Prelude.{◌≡◌};

    /// The list of these names. It allocates nothing.
    pub fn new(names: Vec<Name>) -> Self
        ensures { result ≡ names.items }
    {
        NameList { names }
    }

    /// The names.
    pub fn as_slice(&self) -> &[Name]
        ensures { result.now ≡ self.now }
    {
        &self.names
    }
}
