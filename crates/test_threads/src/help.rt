// What help prints. The launcher reads it here, and a test compares it with the program.

pub const HELP: &str =
    "Lets writers, a builder, a cleaner and a flusher run side by side on a new store of a simulated disk, whose power is cut then, or on the store in a file

Exit status: 0 where all was done and each row was found with its entry; 1 where something was refused or is not so; 2 for bad words

Usage: nsf-threads [OPTIONS]

Options:
      --writers <N>  Threads that write, 1 to 8 [default: 4]
      --changes <M>  Transactions of each, 1 to 60 [default: 8]
      --watch        Shows on the error stream how far the builder is
      --file <FILE>  Works on the store in this file, which `nsf-store new` made, and prints each commit that is safe
  -h, --help         Print help
  -V, --version      Print version
";
