//! The words of the command.

ghost use Rattle.std.specs.Prelude.{◌≡◌, map, option_map, string_bytes};
ghost use Rattle.report_baseline.specs.Words.{asked_of, form_of};
ghost use Rattle.report_baseline.specs.reading.Seen.{asked_seen};

/// In which form the answer is given.
#[derive(Clone, Copy)]
pub enum Form {
    /// The log.
    Log,
    /// Where its results stand, a line for each, and how many stand how.
    Standings,
}

/// What words ask for: a form, and the files that hold the new log, the remarks and the old log.
#[derive(Clone, Copy)]
pub struct Asked<'a> {
    pub form: Form,
    pub new: &'a str,
    pub remarks: &'a str,
    pub old: &'a str,
}

/// The form that a word asks for.
fn form_of(word: &str) -> Option<Form>
    ensures { result ≡ form_of word.now }
{
    if word == "--log" {
        Some(Form::Log)
    } else if word == "--standings" {
        Some(Form::Standings)
    } else {
        None
    }
}

/// What words ask for, if they are a form and three words more.
pub fn read_words(words: &[String]) -> Option<Asked<'_>>
    ensures { option_map asked_seen result ≡ asked_of (map (λ w. string_bytes w) words.now) }
{
    match words {
        [form, new, remarks, old] => {
            let form = form_of(form.as_str())?;
            Some(Asked {
                form,
                new: new.as_str(),
                remarks: remarks.as_str(),
                old: old.as_str(),
            })
        }
        _ => None,
    }
}
