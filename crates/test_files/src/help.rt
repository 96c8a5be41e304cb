// What help prints. The launcher reads it here, and a test compares it with the program.

pub const HELP: &str =
    "Keeps a table with an index in a file. The index is built while the table is written

Exit status: 0 where it was done, refused commands included; 1 where the file or the store was refused, told on the error stream, or a line was no command, told in its place; 2 for bad words; 3 where a command was refused or skipped, with --stop-on-refusal, or a row by `load`

Usage: nsf-store <COMMAND>

Commands:
  new      Makes a store in a new file
  run      Serves the commands of the input, each of which is answered before the next is read
  check    Reads the file alone, and says `sound`, or what is wrong with it
  dump     Prints each row, each entry of the index, and how far that is
  scan     Prints the index's pairs from a key to a key in order, or back, and then `end` or `more`. The file is only read
  stat     Prints what the store is and how far it has come
  build    Builds the index to its end
  load     Loads rows from a file of comma-separated fields under a header, 64 a transaction, and prints how many are safe and how many were refused; the error stream says which columns are taken, and what is refused, by line
  export   Prints the rows as comma-separated fields under a header, as `load` reads them, or as objects of JSON. The file is only read
  backup   Copies the store to a new file of the same kind, and prints what `stat` does of it. The old file is only read
  migrate  Moves a store of version 1, or of either kind of file to the other, to a new file, and prints what `stat` does of it. The old file is only read
  salvage  Puts the rows that can still be read of a damaged store into a new file, without an index, and prints what is lost. The old file is only read
  help     Print this message or the help of the given subcommand(s)

Options:
  -h, --help     Print help
  -V, --version  Print version
";
