//! Laws of the definitions, for those who build on them.

ghost use Rattle.column_input.specs.Laws.{DifferNowhereWhereEqual, OneMoreFileIsAppended, RecordsTakeTheWholeText};
ghost use Rattle.column_input.specs.Laws.{TablesAreWhole, TablesHoldTheirFiles, TheFirstRefusalStays};

/// The records of a text are all that `csv` reads of it, one after another, until what is left of the text has none.
pub fn records_take_the_whole_text()
    ensures { RecordsTakeTheWholeText }
{}

/// A table that was read has a column at least and a text for each row and column, its texts are UTF-8, and it keeps the limits.
pub fn tables_are_whole()
    ensures { TablesAreWhole }
{}

/// Its header is the first record of each file, and its rows are the records after it, file after file.
pub fn tables_hold_their_files()
    ensures { TablesHoldTheirFiles }
{}

/// The table of one more file is the table with that file appended: so one [`crate::Table::append`] for each file, to a
/// table that was empty, gives the table of all.
pub fn one_more_file_is_appended()
    ensures { OneMoreFileIsAppended }
{}

/// The first refusal of the first file that has one is that of all files.
pub fn the_first_refusal_stays()
    ensures { TheFirstRefusalStays }
{}

/// Two headers differ nowhere exactly where they are equal.
pub fn differ_nowhere_where_equal()
    ensures { DifferNowhereWhereEqual }
{}
