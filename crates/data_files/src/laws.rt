//! Laws of the definitions, each the contract of an empty function.

ghost use Rattle.data_files.specs.Laws.{HeldFilesAreOneTable, RefusalsAreToldOfTheirFile};

/// Where all files are held and none is too long, and their bytes are one table, as `column_input` defines it over the list
/// of files, it is the table of their names.
pub fn held_files_are_one_table()
    ensures { HeldFilesAreOneTable }
{}

/// Where the list of files has a refusal in place of a table, that is the refusal of their names, told of the first file
/// with which those before it are no table.
pub fn refusals_are_told_of_their_file()
    ensures { RefusalsAreToldOfTheirFile }
{}
