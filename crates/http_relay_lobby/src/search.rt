ghost use Rattle.std.specs.Prelude.{◌≡◌};
ghost use Rattle.std.specs.List.{fold};
ghost use Rattle.http_relay_lobby.specs.HeadEnds.{is_control, at_line_feed, at_return, at_text, search_behind};

/// Where the search for the end of a head stands. It goes on where it ended, so no byte is looked at twice.
#[derive(Clone, Copy, Debug, PartialEq, Eq)]
pub enum Search {
    /// Before the first line that isn't empty.
    Before,
    /// After the carriage return of an empty line there.
    BeforeReturn,
    /// In a line.
    Line,
    /// After the carriage return of a line.
    LineReturn,
    /// At the beginning of a line that isn't the first.
    Start,
    /// After a carriage return there.
    StartReturn,
    /// After the end of the head, or after a byte that no head has there.
    Found,
}

impl Search {
    /// The search after these bytes more.
    pub fn behind(self, bytes: &[u8]) -> Self
        ensures { result ≡ fold search_behind self bytes.now }
    {
        let mut search = self;
        for byte in bytes {
            search = search.behind_one(*byte);
        }
        search
    }

    fn behind_one(self, byte: u8) -> Self
        ensures { result ≡ search_behind self byte }
    {
        if byte == b'\n' {
            self.at_line_feed()
        } else if byte == b'\r' {
            self.at_return()
        } else if is_control(byte) {
            Search::Found
        } else {
            self.at_text()
        }
    }

    fn at_line_feed(self) -> Self
        ensures { result ≡ at_line_feed self }
    {
        match self {
            Search::Before | Search::BeforeReturn => Search::Before,
            Search::Line | Search::LineReturn => Search::Start,
            Search::Start | Search::StartReturn | Search::Found => Search::Found,
        }
    }

    fn at_return(self) -> Self
        ensures { result ≡ at_return self }
    {
        match self {
            Search::Before => Search::BeforeReturn,
            Search::Line => Search::LineReturn,
            Search::Start => Search::StartReturn,
            _ => Search::Found,
        }
    }

    fn at_text(self) -> Self
        ensures { result ≡ at_text self }
    {
        match self {
            Search::Before | Search::Line | Search::Start => Search::Line,
            _ => Search::Found,
        }
    }
}

/// Whether no head has the byte: a control byte that is no horizontal tab.
fn is_control(byte: u8) -> bool
    ensures { result ≡ is_control byte }
{
    (byte < 32 && byte != b'\t') || byte == 127
}
