//! The pieces of a page: markup, and texts, which are escaped.

ghost use Rattle.std.specs.Prelude.{◌≡◌, ◌++◌, ◌∷◌, [], OnOk, decimal};
ghost use Rattle.page_pieces.specs.Composed.{composed, composed_piece};
ghost use Rattle.page_pieces.specs.Markup.{markup_text};
ghost use Rattle.page_pieces.specs.Pieces.{escaped, escaped_byte, page_text, piece_text};

use crate::markup::{Markup, markup_of, markup_text};
use std::alloc::{AllocError, Global};

/// Appends markup.
pub fn push_markup(page: &mut Vec<u8>, markup: Markup) -> Result<(), AllocError>
    ensures { OnOk result (page.new.items ≡ page.old.items ++ markup_text markup) }
{
    page.extend_from_slice(markup_text(markup).as_bytes())
}

/// Appends a byte of a text, escaped.
fn push_byte(page: &mut Vec<u8>, byte: u8) -> Result<(), AllocError>
    ensures { OnOk result (page.new.items ≡ page.old.items ++ escaped_byte byte) }
{
    match byte {
        b'&' => page.extend_from_slice(b"&amp;"),
        b'<' => page.extend_from_slice(b"&lt;"),
        b'>' => page.extend_from_slice(b"&gt;"),
        b'"' => page.extend_from_slice(b"&quot;"),
        b'\'' => page.extend_from_slice(b"&#39;"),
        _ => {
            page.push(byte)?;
            Ok(())
        }
    }
}

/// Appends a text, escaped.
pub fn push_said(page: &mut Vec<u8>, said: &[u8]) -> Result<(), AllocError>
    ensures { OnOk result (page.new.items ≡ page.old.items ++ escaped said.now) }
{
    for byte in said {
        push_byte(page, *byte)?;
    }
    Ok(())
}

/// Appends a number.
pub fn push_number(alloc: Global, page: &mut Vec<u8>, number: u64) -> Result<(), AllocError>
    ensures { OnOk result (page.new.items ≡ page.old.items ++ escaped (decimal number)) }
{
    let digits = format!(in alloc; "{number}")?;
    push_said(page, digits.as_bytes())
}

/// Appends a byte of a composed text.
fn push_composed_byte(page: &mut Vec<u8>, byte: u8) -> Result<(), AllocError>
    ensures { OnOk result (page.new.items ≡ page.old.items ++ piece_text (composed_piece byte)) }
{
    match markup_of(byte) {
        Some(markup) => push_markup(page, markup),
        None => push_said(page, &[byte]),
    }
}

/// Appends a composed text.
pub fn push_composed(page: &mut Vec<u8>, text: &[u8]) -> Result<(), AllocError>
    ensures { OnOk result (page.new.items ≡ page.old.items ++ page_text (composed text.now)) }
{
    for byte in text {
        push_composed_byte(page, *byte)?;
    }
    Ok(())
}
