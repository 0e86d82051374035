//! The tables of a link text, and their keys.
ghost use Rattle.std.specs.Prelude.{◌≡◌};
ghost use Rattle.te_base.specs.Keys.{is_within, key_word, kind_word, range};

/// The kinds of tables.
#[derive(Clone, Copy, Debug, PartialEq, Eq)]
pub enum TableKind {
    Nodes,
    Links,
}

impl TableKind {
    /// Returns the key of the array that has these tables.
    pub fn word(self) -> &'static str
        ensures { result.now ≡ kind_word self }
    {
        match self {
            TableKind::Nodes => "node",
            TableKind::Links => "link",
        }
    }
}

/// The keys of a node's table (`Name` and `Id`) and of a link's that may be at fault.
#[derive(Clone, Copy, Debug, PartialEq, Eq)]
pub enum Key {
    Name,
    Id,
    From,
    To,
    Local,
    Remote,
    Igp,
    Te,
    Colour,
    Reservable,
}

impl Key {
    /// Returns the key as a link text has it.
    pub fn word(self) -> &'static str
        ensures { result.now ≡ key_word self }
    {
        match self {
            Key::Name => "name",
            Key::Id => "id",
            Key::From => "from",
            Key::To => "to",
            Key::Local => "local",
            Key::Remote => "remote",
            Key::Igp => "igp",
            Key::Te => "te",
            Key::Colour => "colour",
            Key::Reservable => "reservable",
        }
    }

    /// Returns the least and the most that may stand at the key: bytes of a name, an address as a number, or a number.
    pub fn range(self) -> (u64, u64)
        ensures { result ≡ range self }
    {
        match self {
            Key::Name | Key::From | Key::To => (1, 64),
            Key::Id | Key::Local | Key::Remote => (1, 4_294_967_295),
            Key::Igp | Key::Te => (1, 16_777_215),
            Key::Colour => (0, 4_294_967_295),
            Key::Reservable => (0, 281_474_976_710_655),
        }
    }

    /// Tests whether a number is in the range of the key.
    pub(crate) fn is_within(self, number: u64) -> bool
        ensures { result ≡ is_within self number }
    {
        let (least, most) = self.range();
        least <= number && number <= most
    }
}
