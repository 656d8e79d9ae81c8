//! The words of the command.

ghost use Rattle.std.specs.Prelude.{◌≡◌, ◌∷◌, [], codes, map, option_map, string_bytes, None};
ghost use Rattle.report_view.specs.Words.{ask_for_rules, asked_log_of, asked_of, asked_refusal_of, form_of, refusal_of};
ghost use Rattle.report_logs.specs.reading.Seen.{refusal_seen};
ghost use Rattle.report_view.specs.reading.Seen.{asked_log_seen, asked_refusal_seen, asked_seen};

use cmd_words::read_number;
use report_logs::Refusal;
use report_views::Form;
use tm_terms::Place;

/// What words that ask for a view ask for: a form, the file that holds the text, and the name of the file from which
/// its first line comes.
#[derive(Clone, Copy)]
pub struct Asked<'a> {
    pub form: Form,
    pub text: &'a str,
    pub name: &'a str,
}

/// The form that a word asks for.
fn form_of(word: &str) -> Option<Form>
    ensures { result ≡ form_of word.now }
{
    if word == "--lines" {
        Some(Form::Lines)
    } else if word == "--summary" {
        Some(Form::Summary)
    } else {
        None
    }
}

/// The view that words ask for, if they are a form and two words more.
pub fn read_words(words: &[String]) -> Option<Asked<'_>>
    ensures { option_map asked_seen result ≡ asked_of (map (λ w. string_bytes w) words.now) }
{
    match words {
        [form, text, name] => {
            let form = form_of(form.as_str())?;
            Some(Asked {
                form,
                text: text.as_str(),
                name: name.as_str(),
            })
        }
        _ => None,
    }
}

/// Whether words ask for what the rules say: `--rules` alone.
pub fn ask_for_rules(words: &[String]) -> bool
    ensures { result ≡ ask_for_rules (map (λ w. string_bytes w) words.now) }
{
    match words {
        [form] => form.as_str() == "--rules",
        _ => false,
    }
}

/// What words that ask for a log ask for: the file that holds the text, the name of the file from which its first line
/// comes, the files that hold the texts of the waits, of the dead places, of the assumptions and of the ways, the one that
/// holds the lines of the files from which those of the text come, the folder from which names of files are seen, and
/// that of the documents.
#[derive(Clone, Copy)]
pub struct AskedLog<'a> {
    pub text: &'a str,
    pub name: &'a str,
    pub waits: &'a str,
    pub dead: &'a str,
    pub assumptions: &'a str,
    pub ways: &'a str,
    pub lines: &'a str,
    pub folder: &'a str,
    pub documents: &'a str,
}

/// The log that words ask for, if they are `--sarif` and nine words more.
pub fn read_log_words(words: &[String]) -> Option<AskedLog<'_>>
    ensures { option_map asked_log_seen result ≡ asked_log_of (map (λ w. string_bytes w) words.now) }
{
    match words {
        [
            form,
            text,
            name,
            waits,
            dead,
            assumptions,
            ways,
            lines,
            folder,
            documents,
        ] => {
            if form.as_str() != "--sarif" {
                return None;
            }
            Some(AskedLog {
                text: text.as_str(),
                name: name.as_str(),
                waits: waits.as_str(),
                dead: dead.as_str(),
                assumptions: assumptions.as_str(),
                ways: ways.as_str(),
                lines: lines.as_str(),
                folder: folder.as_str(),
                documents: documents.as_str(),
            })
        }
        _ => None,
    }
}

/// What words that ask for the log of a refusal ask for: the file that holds the text, the name of the file from which
/// its first line comes, the file that holds the lines of the files from which those of the text come, the folder of the
/// documents; and of the refusal its line and column in digits, the word of its kind, and what it means.
#[derive(Clone, Copy)]
pub struct AskedRefusal<'a> {
    pub text: &'a str,
    pub name: &'a str,
    pub lines: &'a str,
    pub documents: &'a str,
    pub line: &'a str,
    pub col: &'a str,
    pub word: &'a str,
    pub said: &'a str,
}

/// The refusal that words tell: a line, a column, the word of a kind, and what it means.
pub fn refusal_of<'a>(line: &str, col: &str, word: &'a str, said: &'a str) -> Option<Refusal<'a>>
    ensures { option_map refusal_seen result ≡ refusal_of line.now col.now word.now said.now }
{
    let line = read_number(line)?;
    let col = read_number(col)?;
    Some(Refusal {
        place: Place { line, col },
        word,
        said,
    })
}

/// The log of a refusal that words ask for, if they are `--refusal` and eight words more.
pub fn read_refusal_words(words: &[String]) -> Option<AskedRefusal<'_>>
    ensures { option_map asked_refusal_seen result ≡ asked_refusal_of (map (λ w. string_bytes w) words.now) }
{
    match words {
        [form, text, name, lines, documents, line, col, word, said] => {
            if form.as_str() != "--refusal" {
                return None;
            }
            Some(AskedRefusal {
                text: text.as_str(),
                name: name.as_str(),
                lines: lines.as_str(),
                documents: documents.as_str(),
                line: line.as_str(),
                col: col.as_str(),
                word: word.as_str(),
                said: said.as_str(),
            })
        }
        _ => None,
    }
}
