//! Writing of certificates.
ghost use Rattle.std.specs.Prelude.{◌≡◌, ◌∷◌, ◌++◌, [], OnOk, IfOk};
ghost use Rattle.post_recheck.specs.Pairs.{pair_of};
ghost use Rattle.certificate_texts.specs.Certificates.{head_text, IsWritten};

use crate::certificates::Written;
use crate::pages::{CERTIFICATE_LIMIT, Page};
use interfere_set::Store;
use post_recheck::Table;
use std::alloc::Global;
use tm_lattice::NoMemory;

impl Page {
    // The page on which only the first two lines stand, for a source of so many bytes.
    fn with_head(alloc: Global, count: usize) -> Result<Page, NoMemory>
        ensures { IfOk result (λ page. page.text.items ≡ head_text count) }
    {
        let mut page = Page::new(alloc);
        page.push_numbered(b"tmcert", 1)?;
        page.push_numbered(b"source", count as u64)?;
        Ok(page)
    }

    // Adds the source, and byte 10.
    fn push_source(&mut self, source: &[u8]) -> Result<(), NoMemory>
        ensures { OnOk result (self.new.text.items ≡ self.old.text.items ++ (source.now ++ (10 ∷ []))) }
    {
        match self.text.extend_from_slice(source) {
            Ok(()) => {}
            Err(_) => return Err(NoMemory),
        }
        self.text.push(b'\n')?;
        Ok(())
    }
}

/// The text of the certificate of a source, and of tables and a store of its program. `TooLong` exactly where that text
/// has more than 67,108,864 bytes; no text that is longer by more than a line is made then.
pub fn written(
    alloc: Global,
    source: &[u8],
    tables: &[Table],
    store: &Store,
) -> Result<Written, NoMemory>
    ensures { IfOk result (IsWritten source.now (pair_of tables.now store.now)) }
{
    if source.len() > CERTIFICATE_LIMIT {
        return Ok(Written::TooLong);
    }
    let mut page = Page::with_head(alloc, source.len())?;
    page.push_source(source)?;
    page.push_tables(tables)?;
    page.push_store(store)?;
    page.push_tagged(b"end")?;
    if page.is_full() {
        return Ok(Written::TooLong);
    }
    Ok(Written::Text(page.text))
}
