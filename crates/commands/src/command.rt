// The commands that there are, each with its word.

// A line is a title to be written, or sets something, or asks: the library alone, or the library of the table.
#[derive(Clone, Copy)]
pub enum Command {
    Title,
    Set(Setting),
    Ask(Question),
    AskTable(TableQuestion),
}

// What a line sets. Turned is the path that turning the path gives, and Filed the table that reading the file gives.
#[derive(Clone, Copy)]
pub enum Setting {
    Table,
    Literals,
    Path,
    File,
    Turned,
    Filed,
}

// What a line asks of the path or the file alone.
#[derive(Clone, Copy)]
pub enum Question {
    CheckPath,
    Turn,
    ReadTable,
}

// What a line asks of the table.
#[derive(Clone, Copy)]
pub enum TableQuestion {
    Check,
    Place,
    Evaluate,
    View,
    Write,
}

impl Command {
    // The command with a word. A line with any other first word is a remark.
    pub fn of(word: &[u8]) -> Option<Self> {
        let command = match word {
            b"title" => Command::Title,
            b"table" => Command::Set(Setting::Table),
            b"literals" => Command::Set(Setting::Literals),
            b"path" => Command::Set(Setting::Path),
            b"file" => Command::Set(Setting::File),
            b"turned" => Command::Set(Setting::Turned),
            b"filed" => Command::Set(Setting::Filed),
            b"check_path" => Command::Ask(Question::CheckPath),
            b"turn" => Command::Ask(Question::Turn),
            b"read_table" => Command::Ask(Question::ReadTable),
            b"check_table" => Command::AskTable(TableQuestion::Check),
            b"place" => Command::AskTable(TableQuestion::Place),
            b"evaluate" => Command::AskTable(TableQuestion::Evaluate),
            b"view" => Command::AskTable(TableQuestion::View),
            b"write_table" => Command::AskTable(TableQuestion::Write),
            _ => return None,
        };
        Some(command)
    }
}
