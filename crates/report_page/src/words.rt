//! The words of the command.

ghost use Rattle.std.specs.Prelude.{◌≡◌, map, option_map, string_bytes};
ghost use Rattle.report_page.specs.Words.{asked_of};
ghost use Rattle.report_page.specs.reading.Seen.{asked_seen};

/// What words ask for: the file that holds the text, the name of the file from which its first line comes, and the files
/// that hold the tables, the notes, the lines and the remarks.
#[derive(Clone, Copy)]
pub struct Asked<'a> {
    pub text: &'a str,
    pub name: &'a str,
    pub tables: &'a str,
    pub notes: &'a str,
    pub lines: &'a str,
    pub remarks: &'a str,
}

/// The page that words ask for, if they are six.
pub fn read_words(words: &[String]) -> Option<Asked<'_>>
    ensures { option_map asked_seen result ≡ asked_of (map (λ w. string_bytes w) words.now) }
{
    match words {
        [text, name, tables, notes, lines, remarks] => Some(Asked {
            text: text.as_str(),
            name: name.as_str(),
            tables: tables.as_str(),
            notes: notes.as_str(),
            lines: lines.as_str(),
            remarks: remarks.as_str(),
        }),
        _ => None,
    }
}
