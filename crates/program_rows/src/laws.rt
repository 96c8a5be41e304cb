//! Laws of rows and their records.
ghost use Rattle.std.specs.Prelude.{◌≡◌, ◌≤◌, ◌∷◌, ◌++◌, [], ℕ, List, Ok, Some, length};
ghost use Rattle.csv.specs.Machine.{next_record};
ghost use Rattle.csv.specs.Reading.{default_config};
ghost use Rattle.csv.specs.Writing.{default_writer, row_text};
ghost use Rattle.csv.specs.declared.parser.State.TheVariants.{StartRecord};
ghost use Rattle.hex.specs.Hex.{IsBytes};
ghost use Rattle.json.specs.Lex.{tokens};
ghost use Rattle.json.specs.Print.{print};
ghost use Rattle.record_values.specs.declared.key.TheConstants.{BODY_MAX, KEY_MAX};
ghost use Rattle.record_values.specs.declared.row.Row.{Row};
ghost use Rattle.program_rows.specs.Objects.{json_of_row, object_of_row};
ghost use Rattle.program_rows.specs.Rows.{fields_of_row, own_columns, row_in};

/// A law: the record of a row gives the row; and a record of two fields that gives a row is that row's.
pub fn each_row()
    ensures back { (row : Row) → length row.key ≤ KEY_MAX → length row.body ≤ BODY_MAX
        → row_in own_columns (fields_of_row row) ≡ Ok row }
    ensures forth { (key body : List ℕ) (row : Row) → row_in own_columns (key ∷ body ∷ []) ≡ Ok row
        → fields_of_row row ≡ key ∷ body ∷ [] }
{}

/// A law: where a text goes on with what the writer writes of a row's record, the reader reads that record there, and
/// goes on behind it.
pub fn each_line()
    ensures { (row : Row) (rest : List ℕ)
        → next_record default_config StartRecord [] [] (row_text default_writer (fields_of_row row) ++ rest)
        ≡ Some (fields_of_row row, StartRecord, rest) }
{}

/// A law: a reader reads a row's object as it was written; and two rows whose objects have one line are one row, where
/// keys and bodies are bytes.
pub fn each_object()
    ensures read_back { (row : Row) → tokens (print (object_of_row row)) ≡ object_of_row row }
    ensures apart { (row other : Row) → IsBytes row.key → IsBytes row.body → IsBytes other.key → IsBytes other.body
        → json_of_row row ≡ json_of_row other → row ≡ other }
{}
