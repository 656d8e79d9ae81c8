//! Texts with gaps, of which sources and answers are made. (What a `format!` prints is proved each time that one stands
//! somewhere, so one function prints a number.)
use std::alloc::Global;
use std::test::Fail;

/// Appends a number.
pub(crate) fn push_number(alloc: Global, text: &mut String, number: usize) -> Result<(), Fail> {
    let told = format!(in alloc; "{number}")?;
    text.push_str(&told)?;
    Ok(())
}

/// Appends a text in which each `#` stands for the next number.
pub(crate) fn push_form(
    alloc: Global,
    text: &mut String,
    form: &str,
    numbers: &[usize],
) -> Result<(), Fail> {
    let mut numbers = numbers.iter();
    for sign in form.chars() {
        match sign {
            '#' => if let Some(number) = numbers.next() {
                push_number(alloc, text, *number)?;
            }
            _ => text.push(sign)?,
        }
    }
    Ok(())
}

/// The texts, one behind the other.
pub(crate) fn joined(alloc: Global, texts: &[&str]) -> Result<String, Fail> {
    let mut all = String::new(alloc);
    for text in texts {
        all.push_str(*text)?;
    }
    Ok(all)
}
