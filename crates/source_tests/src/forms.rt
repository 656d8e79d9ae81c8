//! Texts with gaps, of which pictures are made. (What a `format!` prints is proved each time that one stands somewhere,
//! and what owns a text is let go at each way out behind it: so one function prints a number, and all write into a text
//! that they borrow. An arm of a match gives or passes a text and numbers alone: a struct of many fields costs more.)

use std::alloc::Global;
use std::test::Fail;

/// Appends a number.
pub(crate) fn push_number(alloc: Global, text: &mut String, number: i128) -> Result<(), Fail> {
    let told = format!(in alloc; "{number}")?;
    text.push_str(&told)?;
    Ok(())
}

/// Appends a text in which each `#` stands for the next number and each `$` for the next word.
pub(crate) fn push_form(
    alloc: Global,
    text: &mut String,
    form: &str,
    numbers: &[i128],
    words: &[&str],
) -> Result<(), Fail> {
    let mut numbers = numbers.iter();
    let mut words = words.iter();
    for sign in form.chars() {
        match sign {
            '#' => if let Some(number) = numbers.next() {
                push_number(alloc, text, *number)?;
            }
            '$' => if let Some(word) = words.next() {
                text.push_str(*word)?;
            }
            _ => text.push(sign)?,
        }
    }
    Ok(())
}
