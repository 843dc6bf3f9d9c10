ghost use Rattle.haproxy_commands.specs.Laws.{MovedEntriesNameTheirServers, OtherEntriesStay, OtherTablesStay, NamesAreWrittenAsTheyAre};

/// What the commands make of tables: each moved entry names its server, and all other entries and tables are as they were.
pub fn moves_are_made()
    ensures moved { MovedEntriesNameTheirServers }
    ensures others { OtherEntriesStay }
    ensures tables { OtherTablesStay }
{}

/// No byte of a table's name needs a backslash.
pub fn names_are_written_as_they_are()
    ensures { NamesAreWrittenAsTheyAre }
{}
