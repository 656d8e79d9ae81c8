//! Texts with gaps, of which pictures are made. (What a `format!` prints is proved each time that one stands somewhere,
//! so one function prints a number; and a call costs less with a text and lists of one kind than with a mixed list.)
use std::alloc::Global;
use std::test::Fail;

/// Appends a number.
pub(crate) fn push_number(alloc: Global, text: &mut String, number: i128) -> Result<(), Fail> {
    let told = format!(in alloc; "{number}")?;
    text.push_str(&told)?;
    Ok(())
}

/// Appends a text in which each `#` stands for the next number and each `$` for the next word.
pub(crate) fn push_form(
    alloc: Global,
    text: &mut String,
    form: &str,
    numbers: &[i128],
    words: &[&str],
) -> Result<(), Fail> {
    let mut numbers = numbers.iter();
    let mut words = words.iter();
    for sign in form.chars() {
        match sign {
            '#' => if let Some(number) = numbers.next() {
                push_number(alloc, text, *number)?;
            }
            '$' => if let Some(word) = words.next() {
                text.push_str(*word)?;
            }
            _ => text.push(sign)?,
        }
    }
    Ok(())
}
